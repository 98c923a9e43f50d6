//! Several units at once, for callers that take turns: a caller gets all of them, or keeps none.
use plan9::{Fault, Kernel, Note, NoteSet, OpenedKernel, Proc, Seat, Semaphore, Started};
use std::alloc::Global;
use std::sync::Wait;

/// A process with a seat at the units, and one at the semaphore of which the turn is the unit.
#[derive(Drop)]
struct Caller<'s, 'k> {
    proc: Proc<'k>,
    turn: Seat<'s>,
    units: Seat<'s>,
}

/// Takes `count` units, in its turn, and gives the turn back whatever the result is.
fn acquire_all<R: Wait>(rt: &R, me: &mut Caller<'_, '_>, count: u32) -> Result<(), Fault> {
    me.turn.acquire(rt, &mut me.proc)?;
    let got = acquire_each(rt, me, count);
    me.turn.release(rt, &mut me.proc, 1).and(got)
}

/// Takes one unit after another. Where a unit is refused, the units before it are given back.
fn acquire_each<R: Wait>(rt: &R, me: &mut Caller<'_, '_>, count: u32) -> Result<(), Fault> {
    let Caller {
        proc,
        turn: _,
        units,
    } = me;
    for taken in 0..count {
        if let Err(fault) = units.acquire(rt, proc) {
            units.release(rt, proc, taken)?;
            return Err(fault);
        }
    }
    Ok(())
}

/// The result: the answer, and how many units and turns there are now.
type Came = (Result<(), Fault>, Result<u32, Fault>, Result<u32, Fault>);

fn come_of<R: Wait>(rt: &R, me: &mut Caller<'_, '_>, count: u32) -> Came {
    let got = acquire_all(rt, me, count);
    let Caller { proc, turn, units } = me;
    (got, units.release(rt, proc, 0), turn.release(rt, proc, 0))
}

/// Takes two units of three, and then two where one is left, with a note that is pending.
fn take_twice<R: Wait>(rt: &R, me: &mut Caller<'_, '_>) -> Result<[Came; 2], Fault> {
    let first = come_of(rt, me, 2);
    let pid = me.proc.pid();
    me.proc.postnote(pid, NoteSet::of(Note::Hangup))?;
    Ok([first, come_of(rt, me, 2)])
}

fn run<R: Wait>(rt: &R, alloc: Global) -> Result<[Came; 2], Fault> {
    let OpenedKernel { kernel, start } = Kernel::new(alloc, 1, 2)?;
    let Started { mut roster, proc } = kernel.start(start);
    let mut turns = Semaphore::new(alloc, &mut roster, 1, 1)?;
    let mut units = Semaphore::new(alloc, &mut roster, 3, 1)?;
    let mut me = Caller {
        proc,
        turn: turns.seat()?,
        units: units.seat()?,
    };
    take_twice(rt, &mut me)
}

#[test]
fn all_units_come_or_none_is_kept(rt: HostRuntime) {
    let interrupted = Err(Fault::Interrupted(NoteSet::of(Note::Hangup)));
    let wanted = [(Ok(()), Ok(1), Ok(1)), (interrupted, Ok(1), Ok(1))];
    assert_eq!(rt; run(&rt, rt.alloc()), Ok(wanted));
}
