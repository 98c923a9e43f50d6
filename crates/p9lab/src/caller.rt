//! A process with its things, and the calls that a line may make of it.
use crate::progress::{Progress, Stops, Visitor};
use crate::roles::{
    call_guest, call_holder, call_plain, call_reader, call_receiver, call_sender, call_sharer,
    call_writer,
};
use plan9::{
    Member, NoProbe, Probe, Proc, ReadEnd, Receiver, Seat, Sender, Share, Watch, WriteEnd,
};
use scene_text::answer::{Answer, NO_CLOCK, NOT_HERE, NOT_ITS_CALL, Visit};
use scene_text::verbs::{Asked, Call, RoleAt, RoleName};
use std::alloc::Global;
use std::sync::Wait;

/// A process of the library, as a scene has it.
pub type OwnProc = Proc<'static>;

/// What a process has by a role: of an object, or that it is a process alone.
#[derive(Drop)]
pub enum Thing {
    Plain,
    Reader(ReadEnd<'static>),
    Writer(WriteEnd<'static>),
    Holder(Seat<'static>),
    /// None while it rforks.
    Guest(Option<Member<'static>>),
    Sharer(Share<'static, 'static>),
    Sender(Sender<'static, u64>),
    Receiver(Receiver<'static, u64>),
}

/// A thing, and the role as a line names it.
#[derive(Drop)]
pub struct Held {
    pub role: RoleAt,
    pub thing: Thing,
}

/// What a process has for its calls: memory, the bytes that it writes or has read, and its seat at
/// timers.
#[derive(Drop)]
pub struct Means {
    pub alloc: Global,
    pub bytes: Vec<u8>,
    pub watch: Option<Watch<'static>>,
}

/// A process, what it has, in the order in which it got it, and the points that its last probed
/// call has visited.
#[derive(Drop)]
pub struct Caller {
    pub proc: OwnProc,
    pub things: Vec<Held>,
    pub means: Means,
    pub visits: Vec<Visit>,
}

/// A process after a call that it made on a thread.
#[derive(Drop)]
pub struct Reply {
    pub caller: Caller,
    pub answer: Answer,
}

/// The place among these of what was got last by a role of this name.
pub fn last_of(things: &Vec<Held>, name: RoleName) -> Option<usize> {
    things.iter().rposition(|held| held.role.name == name)
}

// What was got last of all by which this call may be made.
fn maker_of(things: &mut Vec<Held>, asked: Asked) -> Option<&mut Thing> {
    let at = things.iter().rposition(|held| asked.suits(held.role))?;
    Some(&mut things.get_mut(at)?.thing)
}

/// A call on a thread. That it has ended is told last.
pub fn run(
    rt: &impl Wait,
    mut caller: Caller,
    asked: Asked,
    stops: Stops,
    progress: &'static Progress,
) -> Reply {
    let answer = answer_to(rt, &mut caller, asked, stops, progress);
    progress.end();
    Reply { caller, answer }
}

// A call by one of its things. Where it is probed the thread stands at its points.
fn answer_to(
    rt: &impl Wait,
    caller: &mut Caller,
    asked: Asked,
    stops: Stops,
    progress: &Progress,
) -> Answer {
    let Caller {
        proc,
        things,
        means,
        visits,
    } = caller;
    let maker = maker_of(things, asked);
    if !stops.probed {
        return match maker {
            Some(thing) => make_call(rt, thing, proc, means, asked.call, &mut NoProbe),
            None => NOT_ITS_CALL,
        };
    }
    visits.clear();
    let Some(thing) = maker else {
        return NOT_PROBED;
    };
    if !asked.call.takes_probe() {
        return NOT_PROBED;
    }
    let mut probe = Visitor {
        progress,
        stops,
        visits,
    };
    make_call(rt, thing, proc, means, asked.call, &mut probe)
}

// Lines are kept for a call that takes no probe.
const NOT_PROBED: Answer = Answer::Word("not probed");

// A call by this thing, with this probe.
fn make_call(
    rt: &impl Wait,
    thing: &mut Thing,
    proc: &mut OwnProc,
    means: &mut Means,
    call: Call,
    probe: &mut impl Probe,
) -> Answer {
    let answer = match thing {
        Thing::Plain => call_plain(rt, proc, means, call, probe),
        Thing::Reader(end) => call_reader(rt, end, proc, means, call, probe),
        Thing::Writer(end) => call_writer(rt, end, proc, means, call, probe),
        Thing::Holder(seat) => call_holder(rt, seat, proc, means, call, probe),
        Thing::Guest(Some(member)) => call_guest(rt, member, proc, means, call, probe),
        Thing::Guest(None) => Some(NOT_HERE),
        Thing::Sharer(share) => Some(call_sharer(rt, share, proc, &mut means.bytes, call)),
        Thing::Sender(sender) => call_sender(rt, sender, proc, &mut means.watch, call),
        Thing::Receiver(receiver) => call_receiver(rt, receiver, proc, &mut means.watch, call),
    };
    answer.unwrap_or(NO_CLOCK)
}
