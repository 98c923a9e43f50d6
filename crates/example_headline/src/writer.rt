//! A writer, which may be lent to a thread.
use pipe_dev::WriteEnd;
use sleep_wakeup::Proc;
use std::alloc::Global;
use std::sync::Wait;
use sync_base::{Fault, Piece};

/// A writer: its end and its process, its messages, how many of them were accepted, and why it
/// stopped, where a write was refused.
#[derive(Drop)]
pub struct Writer<'p> {
    pub(crate) end: WriteEnd<'p>,
    pub(crate) proc: Proc<'p>,
    pub(crate) messages: Vec<Piece>,
    pub(crate) accepted: usize,
    pub(crate) refused: Option<Fault>,
}

impl<'p> Writer<'p> {
    ghost use Rattle.example_headline.specs.Crew.{HasWrittenOn, EndsFrom, StaysEnded};

    /// Writes its messages in their order, until one is not accepted.
    pub fn write_all<R: Wait>(&mut self, rt: &R, alloc: Global)
        ensures on { HasWrittenOn self.old self.new }
        ensures ended { EndsFrom self.old self.new }
    {
        self.refused = None;
        'writing: while let Some(message) = self.messages.get(self.accepted) {
            match self
                .end
                .write(alloc, rt, &mut self.proc, message.as_slice())
            {
                Ok(_) => self.accepted += 1,
                Err(fault) => {
                    self.refused = Some(fault);
                    return;
                }
            }
        }
    }

    /// Hangs the direction up.
    pub fn hangup(&mut self)
        ensures on { HasWrittenOn self.old self.new }
        ensures ended { StaysEnded self.old self.new }
    {
        self.end.hangup(&mut self.proc);
    }
}
