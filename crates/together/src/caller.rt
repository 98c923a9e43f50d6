//! What the caller of a team does while its threads run.

use crate::board::Board;
use crate::job::Told;
use sleep_wakeup::Proc;
use std::sync::Wait;

/// Who waits for the threads of a team. Threads are started for any supervisor, so that the types
/// of what they share name no lifetime but that of the board.
pub(crate) trait Supervisor<R> {
    /// Wakes each thread that waits for the decision, from the first number up to below the second.
    /// Where the team starts, it is told of each job that has ended, until all have.
    fn attend(self, rt: &R, board: &Board, first: usize, end: usize, starts: bool);
}

/// The caller's process, and whom it tells.
#[derive(Drop)]
pub(crate) struct Caller<'a, 'c, T> {
    pub(crate) proc: &'a mut Proc<'c>,
    pub(crate) told: &'a mut T,
}

impl<'a, 'c, R: Wait, T: Told<R>> Supervisor<R> for Caller<'a, 'c, T> {
    fn attend(self, rt: &R, board: &Board, first: usize, end: usize, starts: bool) {
        let Caller { proc, told } = self;
        for number in first..end {
            let gate = board.gate(number);
            let _woken = proc.wakeup(gate.rendez, gate.level.saturating_add(1));
        }
        if starts {
            board.roll.read(rt, proc, board.desk, told);
        }
    }
}
