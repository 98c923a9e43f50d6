//! What a line is answered.
use pipe_dev::{Long, ReadAnswer, TryAnswer};
use sleep_wakeup::{ProcStatus, RendezStatus};
use sync_base::{Fault, NoteSet};

/// A point that a call has visited, and whether its process stood posted in a Rendez then.
#[derive(Clone, Copy)]
pub struct Visit {
    pub point: u64,
    pub posted: bool,
}

/// What an answer shows of a process: the bytes that it has read, and the points that its last call
/// has visited; and what was told before.
#[derive(Clone, Copy)]
pub struct Shown<'a> {
    pub bytes: &'a [u8],
    pub visits: &'a [Visit],
    pub told: &'a [u8],
}

/// Nothing is shown.
pub const NOTHING: Shown<'static> = Shown {
    bytes: &[],
    visits: &[],
    told: &[],
};

/// An answer, in words and what stands after them.
#[derive(Clone, Copy)]
pub enum Answer {
    /// A line that has none.
    Nothing,
    Word(&'static str),
    Number(&'static str, u64),
    /// So many bytes of what the process has read.
    Bytes(&'static str, usize),
    Notes(&'static str, NoteSet),
    Fault(Fault),
    /// A fault, and how far the call came before it.
    FaultAfter(Fault, u64),
    /// The points that the last probed call has visited.
    Points,
    /// Those of them at which the process stood posted in a Rendez.
    Posted,
    /// How a process stands, as a look shows it.
    Status(ProcStatus),
    /// How a Rendez stands.
    Level(RendezStatus),
    /// What was told before, from one place to another.
    Told(usize, usize),
}

/// What a line comes to.
pub type Came = Result<Answer, Fault>;

/// A call that was made.
pub const OK: Answer = Answer::Word("ok");

/// A process whose last call still runs, or that is gone.
pub const NOT_HERE: Answer = Answer::Word("not here");

/// A fork that asks for no child.
pub const NOBODY: Answer = Answer::Word("nobody");

/// A call that the role of a process does not make.
pub const NOT_ITS_CALL: Answer = Answer::Word("not its call");

/// A call of a process that has no seat at timers.
pub const NO_CLOCK: Answer = Answer::Word("no clock");

/// What a call came to that answers nothing else.
pub fn done<T: Drop>(word: &'static str, answer: Result<T, Fault>) -> Answer {
    match answer {
        Ok(_) => Answer::Word(word),
        Err(fault) => Answer::Fault(fault),
    }
}

/// A word and the number that a call came to.
pub fn numbered(word: &'static str, answer: Result<u64, Fault>) -> Answer {
    match answer {
        Ok(number) => Answer::Number(word, number),
        Err(fault) => Answer::Fault(fault),
    }
}

/// What a read came to.
pub fn have_read(answer: Result<ReadAnswer, Fault>) -> Answer {
    match answer {
        Ok(ReadAnswer::Got(count)) => Answer::Bytes("got", count),
        Ok(ReadAnswer::End) => Answer::Word("end"),
        Err(fault) => Answer::Fault(fault),
    }
}

/// A piece, or the end.
pub fn have_piece(answer: Result<Option<usize>, Fault>) -> Answer {
    match answer {
        Ok(Some(count)) => Answer::Bytes("got", count),
        Ok(None) => Answer::Word("end"),
        Err(fault) => Answer::Fault(fault),
    }
}

/// What a read came to that does not wait.
pub fn have_tried(answer: Result<TryAnswer, Fault>) -> Answer {
    match answer {
        Ok(TryAnswer::Got(count)) => Answer::Bytes("got", count),
        Ok(TryAnswer::NotYet) => Answer::Word("not yet"),
        Ok(TryAnswer::End) => Answer::Word("end"),
        Err(fault) => Answer::Fault(fault),
    }
}

/// How far a long write came, and why it went no further.
pub fn have_written(long: Long) -> Answer {
    match long.fault {
        None => Answer::Number("taken", long.taken),
        Some(fault) => Answer::FaultAfter(fault, long.taken),
    }
}
