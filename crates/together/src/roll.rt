//! How the caller of a team is told that a job has ended.
use crate::gate::{Gate, give_back};
use crate::job::Told;
use sleep_wakeup::Proc;
use std::alloc::{AllocError, Global};
use std::sync::Wait;
use std::sync::atomic::Ordering::SeqCst;
use std::sync::atomic::{AtomicBool, AtomicU64};
use std::thread::yield_now;
use sync_base::{Fault, NoteSet};

/// Which jobs have ended, and how many.
#[derive(Drop)]
pub struct Roll {
    /// Of each job, whether it has ended and the caller was not told of it yet.
    news: Vec<AtomicBool>,
    count: AtomicU64,
}

impl Roll {
    /// A roll of this many jobs, none of which has ended.
    pub fn new(alloc: Global, jobs: usize) -> Result<Roll, AllocError> {
        let mut news = Vec::with_capacity(alloc, jobs)?;
        for _ in 0..jobs {
            news.push(AtomicBool::new(false))?;
        }
        Ok(Roll {
            news,
            count: AtomicU64::new(0),
        })
    }

    /// The job with this number has ended. Wakes the caller, which sleeps at this gate, with how
    /// many have.
    pub fn sign(&self, proc: &mut Proc<'_>, desk: Gate, number: usize) {
        if let Some(news) = self.news.get(number) {
            news.store(true, SeqCst);
        }
        let before = self.count.fetch_add(1, SeqCst);
        let level = desk.level.saturating_add(before).saturating_add(1);
        let _woken = proc.wakeup(desk.rendez, level);
    }

    /// Tells of each job that has ended, until it has told of all. Notes to the caller do not end
    /// the wait: they are pending again after it.
    pub fn read<R: Wait, T: Told<R>>(&self, rt: &R, proc: &mut Proc<'_>, desk: Gate, told: &mut T) {
        let (mut ended, mut kept) = (0u64, NoteSet::empty());
        for _ in rt.forever() {
            for (number, news) in self.news.iter().enumerate() {
                if news.swap(false, SeqCst) {
                    told.told(rt, proc, number);
                    ended = ended.saturating_add(1);
                }
            }
            if ended >= self.news.len() as u64 {
                break;
            }
            match proc.sleep(rt, desk.rendez, desk.level.saturating_add(ended)) {
                Ok(()) => {}
                Err(Fault::Interrupted(notes)) => kept = kept.join(notes),
                Err(_) => yield_now(),
            }
        }
        give_back(proc, kept);
    }
}
