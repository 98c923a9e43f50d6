//! What each thread of a run does.
ghost use Rattle.std.specs.Prelude.{◌≡◌, ◌≤◌, true, vec_len};
ghost use Rattle.std.specs.Result.{ForOk};
ghost use Rattle.crew.specs.declared.message.TheConstants.{HEAD};
ghost use Rattle.crew.specs.Tally.{IsTallyOf};
ghost use Rattle.crew.specs.Threads.{is_at_end, is_hung};

use crate::gate::Gate;
use crate::message::fill;
use crate::opts::Report;
use crate::tally::Tally;
use pipe_dev::{ReadAnswer, ReadEnd, WriteEnd};
use sleep_wakeup::{Proc, Roster};
use std::alloc::Global;
use std::sync::Wait;
use sync_base::{Fault, Flags, ThreadsOpts};

/// A writer, before and after it writes.
#[derive(Drop)]
pub struct Writer<'p> {
    proc: Proc<'p>,
    end: WriteEnd<'p>,
    pub(crate) number: u64,
    pub(crate) writes: u64,
    /// How many of its messages were accepted, from the first on.
    pub(crate) done: u64,
    message: Vec<u8>,
    /// Why it stopped, if a write was refused.
    pub(crate) wrote: Result<(), Fault>,
    ghost head: { HEAD ≤ vec_len message },
    ghost few: { done ≤ writes },
}

/// A writer that has hung its direction up.
#[derive(Drop)]
pub struct HungWriter<'p> {
    pub(crate) end: WriteEnd<'p>,
    pub(crate) ghost hung: { is_hung end.account.seen ≡ true },
}

impl<'p> Writer<'p> {
    ghost use Rattle.std.specs.Prelude.{◌≡◌, ◌<◌, true, false, IfOk};
    ghost use Rattle.crew.specs.Threads.{AreWithin};
    ghost use Rattle.crew.specs.Writing.{HasWrittenOn, HasEnded, IsReadyWriter};

    // A new process with this end.
    fn new(
        alloc: Global,
        opts: &ThreadsOpts,
        roster: &mut Roster<'p>,
        parent: &mut Proc<'p>,
        end: WriteEnd<'p>,
    ) -> Result<Writer<'p>, Fault>
        requires { AreWithin opts.now }
        ensures new { IfOk result (IsReadyWriter opts.now) }
    {
        let message = vec![in alloc; 0; opts.size as usize]?;
        let Some(proc) = roster.rfork(parent, Flags::RFPROC)? else {
            return Err(Fault::NoProc);
        };
        Ok(Writer {
            proc,
            number: end.writer(),
            end,
            writes: opts.writes,
            done: 0,
            message,
            wrote: Ok(()),
        })
    }

    /// Writes its messages, one after the other, as far as the gate lets it.
    #[tactic(auto, using(crate::proofs::WritingLemmas::same_writer))]
    pub fn write_all<R: Wait, G: Gate>(self, alloc: Global, rt: &R, gate: &G) -> Writer<'p>
        // Each message that it counts was accepted, whole and in its order.
        ensures on { HasWrittenOn self.entry result }

        // It stops at the last one, where the gate sends it away, and at a fault.
        ensures ended { HasEnded G.may_stop gate.now result }
    {
        let mut writer = self;
        'writing: while writer.write_next(alloc, rt, gate) {}
        writer
    }

    // Writes its next message, where it has one and the gate lets it.
    fn write_next<R: Wait, G: Gate>(&mut self, alloc: Global, rt: &R, gate: &G) -> bool
        ensures on { HasWrittenOn self.old self.new }
        ensures more { result ≡ true → self.old.done < self.new.done }
        ensures ended { result ≡ false → HasEnded G.may_stop gate.now self.new }
    {
        if self.wrote.is_err() || self.done >= self.writes || !gate.pass(self.number, self.done) {
            return false;
        }
        fill(&mut self.message, self.number, self.done);
        match self.end.write(alloc, rt, &mut self.proc, &self.message) {
            Ok(_) => {
                self.done += 1;
                true
            }
            Err(fault) => {
                self.wrote = Err(fault);
                false
            }
        }
    }

    /// Hangs the pipe up.
    #[tactic(auto, using(crate::proofs::WritingLemmas::hung_now))]
    pub fn hangup(self) -> HungWriter<'p> {
        let Writer {
            mut proc,
            mut end,
            ..
        } = self;
        end.hangup(&mut proc);
        HungWriter { end }
    }
}

/// The reader.
#[derive(Drop)]
pub struct Reader<'p> {
    proc: Proc<'p>,
    end: ReadEnd<'p>,
    block: Vec<u8>,
    pub(crate) opts: ThreadsOpts,
    tally: Tally,
    ghost of: { IsTallyOf opts tally },
}

/// What a reader has counted of a run with these options, and why it stopped, if it did not come to
/// the end. What a thread returns is known by its type alone, so the options are part of it.
#[derive(Drop)]
pub struct Counted<'p> {
    end: ReadEnd<'p>,
    opts: ThreadsOpts,
    tally: Tally,
    /// Why the reader did not come to the end, if it did not.
    pub(crate) read: Result<(), Fault>,
    ghost of: { IsTallyOf opts tally },
    ghost ended: { ForOk read (λ _. is_at_end end.account.seen ≡ true) },
}

impl<'p> Reader<'p> {
    ghost use Rattle.std.specs.Prelude.{◌≡◌, IfOk};
    ghost use Rattle.crew.specs.Tally.{AreOfOneRun, IsNewTally};
    ghost use Rattle.crew.specs.Threads.{AreWithin};

    // A reader that has counted nothing.
    fn new(
        alloc: Global,
        opts: &ThreadsOpts,
        proc: Proc<'p>,
        end: ReadEnd<'p>,
    ) -> Result<Reader<'p>, Fault>
        requires { AreWithin opts.now }
        ensures opts { IfOk result (λ reader. reader.opts ≡ opts.now) }
        ensures empty { IfOk result (λ reader. IsNewTally reader.tally) }
    {
        Ok(Reader {
            proc,
            end,
            block: Vec::with_capacity(alloc, opts.size as usize)?,
            opts: *opts,
            tally: Tally::new(alloc, opts)?,
        })
    }

    /// Reads and counts, block by block, until the end. Where it can't read on, it hangs the pipe
    /// up.
    #[tactic(auto, using(crate::proofs::CrewLemmas::still_of, crate::proofs::WritingLemmas::at_end))]
    pub fn read_all<R: Wait>(self, rt: &R) -> Counted<'p>
        ensures opts { result.opts ≡ self.entry.opts }
        ensures run { AreOfOneRun self.entry.tally result.tally }
    {
        let Reader {
            mut proc,
            mut end,
            mut block,
            opts,
            mut tally,
        } = self;
        'reading: for _ in rt.forever() {
            match end.read_block(rt, &mut proc, &mut block) {
                Ok(ReadAnswer::Got(_)) => tally.count(&block),
                Ok(ReadAnswer::End) => {
                    return Counted {
                        end,
                        opts,
                        tally,
                        read: Ok(()),
                    };
                }
                Err(fault) => {
                    end.hangup(&mut proc);
                    return Counted {
                        end,
                        opts,
                        tally,
                        read: Err(fault),
                    };
                }
            }
        }
        unreachable!()
    }
}

impl<'p> Counted<'p> {
    ghost use Rattle.std.specs.Prelude.{◌≡◌, Err, IfOk, IfErr};
    ghost use Rattle.crew.specs.Tally.{ReportsTally};
    ghost use Rattle.crew.specs.Threads.{IsReportOf};

    /// What was read up to the end, or why the reader did not come to the end. `Device` where it
    /// counted for a run with other options.
    pub fn report(&self, opts: &ThreadsOpts) -> Result<Report, Fault>
        ensures fault { IfErr self.now.read (λ fault. result ≡ Err fault) }
        ensures told { IfOk result (ReportsTally opts.now.writers self.now.tally) }
        ensures of { IfOk result (IsReportOf opts.now) }
    {
        self.read?;
        if self.opts != *opts {
            return Err(Fault::Device);
        }
        Ok(self.tally.report(opts.writers))
    }
}

/// The writers and the reader of a run.
#[derive(Drop)]
pub struct Crew<'p> {
    pub reader: Reader<'p>,
    pub writers: Vec<Writer<'p>>,
}

impl<'p> Crew<'p> {
    ghost use Rattle.std.specs.Prelude.{◌≡◌, All, IfOk};
    ghost use Rattle.block_queue.specs.Seats.{key_of};
    ghost use Rattle.crew.specs.Tally.{IsNewTally};
    ghost use Rattle.crew.specs.declared.threads.TheConstants.{LIMIT};
    ghost use Rattle.crew.specs.Threads.{AreWithin};
    ghost use Rattle.crew.specs.Writing.{IsReadyWriter};

    /// A reader at one end, and as many writers as there are at the other, each a process. All
    /// memory but that of the writes is taken here.
    pub fn new(
        alloc: Global,
        opts: &ThreadsOpts,
        roster: Roster<'p>,
        proc: Proc<'p>,
        read: ReadEnd<'p>,
        writes: Vec<WriteEnd<'p>>,
    ) -> Result<Crew<'p>, Fault>
        requires within { AreWithin opts.now }

        // The pipe holds so many writes that no read has begun.
        requires limit { (key_of read.queue).limit ≡ LIMIT }

        // Each writer has all its messages to write.
        ensures writers { IfOk result (λ crew.
            All (IsReadyWriter opts.now) crew.writers.items) }

        // The reader has counted nothing.
        ensures reader { IfOk result (λ crew. crew.reader.opts ≡ opts.now) }
        ensures empty { IfOk result (λ crew. IsNewTally crew.reader.tally) }
    {
        let (mut roster, mut proc) = (roster, proc);
        let writers = Crew::writers_at(alloc, opts, &mut roster, &mut proc, writes)?;
        let reader = Reader::new(alloc, opts, proc, read)?;
        Ok(Crew { reader, writers })
    }

    // A writer at each of these ends.
    fn writers_at(
        alloc: Global,
        opts: &ThreadsOpts,
        roster: &mut Roster<'p>,
        parent: &mut Proc<'p>,
        ends: Vec<WriteEnd<'p>>,
    ) -> Result<Vec<Writer<'p>>, Fault>
        requires { AreWithin opts.now }
        ensures ready { IfOk result (λ writers.
            All (IsReadyWriter opts.now) writers.items) }
    {
        let mut writers = Vec::with_capacity(alloc, ends.len())?;
        'seating: for end in ends {
            writers.push(Writer::new(alloc, opts, roster, parent, end)?)?;
        }
        Ok(writers)
    }
}
