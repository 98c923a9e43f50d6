//! A line, cut into its words.
use crate::verbs::Call::*;
use crate::verbs::Verb::*;
use crate::verbs::{Call, Deadline, RoleAt, RoleName, Verb};
use crate::words::{Words, bytes, count, flags, kinds, number, number_of, object, object_of, room};
use sync_base::Mode;

/// What is played of a line, and the answer that it wants, if one was written. A comment has none.
pub fn cut(line: &str) -> (&str, Option<&str>) {
    match line.split_once(" = ") {
        Some((played, wanted)) if !line.starts_with('#') => (played, Some(wanted)),
        _ => (line, None),
    }
}

/// A line: the process whose it is, what it asks for, the role in which a call is made, if one is
/// named, and whether the call is played apart.
#[derive(Clone, Copy)]
pub struct Line<'t> {
    pub process: Option<u64>,
    pub verb: Verb<'t>,
    pub role: Option<RoleAt>,
    pub apart: bool,
}

/// The line in a text, if it is one. No other operands may stand there.
pub fn line_of(text: &str) -> Option<Line<'_>> {
    let mut words = text.split_whitespace();
    let first = words.next()?;
    let process = number_of(first);
    let verb = match process {
        None => of_scene(text, first, &mut words)?,
        Some(process) => of_process(process, words.next()?, &mut words)?,
    };
    let Tail { role, next } = match verb {
        Plan(_) | At(_, _) => NO_TAIL,
        Makes(_, _) if process != Some(0) => role_and_next(&mut words),
        _ => Tail {
            next: words.next(),
            ..NO_TAIL
        },
    };
    let apart = match next {
        None => false,
        Some("&") if may_be_apart(process, verb) && words.next().is_none() => true,
        Some(_) => return None,
    };
    Some(Line {
        process,
        verb,
        role,
        apart,
    })
}

// Whether it is a call of another process than 0.
fn may_be_apart(process: Option<u64>, verb: Verb<'_>) -> bool {
    process != Some(0) && matches!(verb, Makes(_, _))
}

// A line of no process.
fn of_scene<'t>(text: &'t str, word: &str, words: &mut Words<'t>) -> Option<Verb<'t>> {
    Some(match word {
        "kernel" => Kernel(number(words)?, number(words)?),
        "plan" => Plan(rest_after(text, 1)),
        "pipe" => Pipe(Mode::Message, number(words)?, number(words)?),
        "stream" => Pipe(Mode::Stream, number(words)?, number(words)?),
        "share" => Share(number(words)?, object(words)?),
        "sema" => Sema(count(words)?, number(words)?),
        "clock" => Clock(number(words)?),
        "space" => Space(number(words)?),
        "new_group" => NewGroup(number(words)?),
        "queue" => Queue(number(words)?, number(words)?),
        "stranger" => Stranger(number(words)?, number(words)?, role(words)??),
        "left" => Left,
        "rendez" => Level(number(words)?),
        "at" => At(number(words)?, rest_after(text, 2)),
        "acted" => Acted(number(words)?),
        _ => return None,
    })
}

// A line of this process: of each, of process 0 alone, or of the others alone.
fn of_process<'t>(process: u64, word: &str, words: &mut Words<'t>) -> Option<Verb<'t>> {
    Some(match word {
        "fork" => Fork(role(words)?),
        "rfork" => Rfork(flags(words)?, role(words)?),
        "notepg" => NoteGroup(number(words)?, kinds(words)?),
        "look" => Look,
        "wakeup" => Makes(Wakeup(number(words)?, number(words)?), ""),
        "note" => Makes(Note(number(words)?, kinds(words)?), ""),
        "notes" => Makes(Notes, ""),
        "put_back" => Makes(PutBack(kinds(words)?), ""),
        _ if process == 0 => return of_zero(word, words),
        "gets" => Gets(role(words)??),
        "clock" => TakeSeat(object(words)?),
        "waits" => Waits,
        "ends" => Ends,
        "points" => Points,
        "posted" => Posted,
        "write" => Makes(Write, bytes(words)?),
        "write_within" => Makes(WriteWithin(deadline(words)?), bytes(words)?),
        "write_long" => Makes(WriteLong, bytes(words)?),
        _ => Makes(call_of(word, words)?, ""),
    })
}

// A line of process 0 alone.
fn of_zero<'t>(word: &str, words: &mut Words<'t>) -> Option<Verb<'t>> {
    Some(match word {
        "rendez" => GiveRendez,
        "row" => GiveRow(number(words)?),
        "pids_left" => PidsLeft,
        "rendez_left" => RendezLeft,
        "tick" => TickAt(number(words)?, object(words)?),
        _ => return None,
    })
}

// A call that writes nothing, of another process than 0.
fn call_of(word: &str, words: &mut Words<'_>) -> Option<Call> {
    Some(match word {
        "sleep" => Sleep(number(words)?, number(words)?),
        "sleep_within" => SleepWithin(deadline(words)?, number(words)?, number(words)?),
        "tick" => Tick(number(words)?),
        "read" => Read(room(words)?),
        "read_within" => ReadWithin(deadline(words)?, room(words)?),
        "try_read" => TryRead(room(words)?),
        "read_block" => ReadBlock,
        "next_piece" => NextPiece(room(words)?),
        "read_exact" => ReadExact(room(words)?),
        "hangup" => Hangup,
        "acquire" => Acquire,
        "try_acquire" => TryAcquire,
        "acquire_within" => AcquireWithin(deadline(words)?),
        "release" => Release(count(words)?),
        "rendezvous" => Rendezvous(number(words)?, number(words)?),
        "rendezvous_within" => {
            RendezvousWithin(deadline(words)?, number(words)?, number(words)?)
        }
        "rendezvous_word" => RendezvousWord(number(words)?, number(words)?),
        "rendez" => Rendez,
        _ => return call_of_queue(word, words),
    })
}

// A call by a sender or a receiver of a queue alone.
fn call_of_queue(word: &str, words: &mut Words<'_>) -> Option<Call> {
    Some(match word {
        "send" => Send(number(words)?),
        "send_within" => SendWithin(deadline(words)?, number(words)?),
        "try_send" => TrySend(number(words)?),
        "receive" => Receive,
        "receive_within" => ReceiveWithin(deadline(words)?),
        "try_receive" => TryReceive,
        _ => return None,
    })
}

// What stands after so many words.
fn rest_after(text: &str, count: usize) -> &str {
    text.splitn(count.saturating_add(1), ' ')
        .nth(count)
        .unwrap_or("")
}

// A moment, and milliseconds.
fn deadline(words: &mut Words<'_>) -> Option<Deadline> {
    let now = number(words)?;
    let ms = count(words)?;
    Some(Deadline { now, ms })
}

// A role that may stand there, and the word after it.
#[derive(Clone, Copy)]
struct Tail<'t> {
    role: Option<RoleAt>,
    next: Option<&'t str>,
}

const NO_TAIL: Tail<'static> = Tail {
    role: None,
    next: None,
};

// The role that stands there, if one does: `reader`, `reader 2`, `reader back` or `reader 2 back`.
// Nothing else may stand there.
fn role(words: &mut Words<'_>) -> Option<Option<RoleAt>> {
    match role_and_next(words) {
        Tail { role, next: None } => Some(role),
        _ => None,
    }
}

// The role that stands there, if one does, and what comes after it.
fn role_and_next<'t>(words: &mut Words<'t>) -> Tail<'t> {
    let mut next = words.next();
    let Some(name) = next.and_then(name_of) else {
        return Tail { role: None, next };
    };
    next = words.next();
    let mut object = 1;
    if let Some(number) = next.and_then(object_of) {
        object = number;
        next = words.next();
    }
    let back = next == Some("back");
    if back {
        next = words.next();
    }
    let role = Some(RoleAt { name, object, back });
    Tail { role, next }
}

// The role that a word names.
fn name_of(word: &str) -> Option<RoleName> {
    match word {
        "plain" => Some(RoleName::Plain),
        "reader" => Some(RoleName::Reader),
        "writer" => Some(RoleName::Writer),
        "writers" => Some(RoleName::Writers),
        "holder" => Some(RoleName::Holder),
        "guest" => Some(RoleName::Guest),
        "sharer" => Some(RoleName::Sharer),
        "sender" => Some(RoleName::Sender),
        "receiver" => Some(RoleName::Receiver),
        _ => None,
    }
}
