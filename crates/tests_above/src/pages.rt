//! The examples of the manual pages, line for line. `tests/pages/manual_calls` compares them with
//! the pages.
use crate::kernels::{forked, kernel_of};
use plan9::{
    Clock, Fault, Flags, Note, NoteSet, OpenedKernel as Opened, Pid, Proc, RendezId, Roster,
    Started,
};
use std::process::Abort;
use std::thread::join;

const READY: RendezId = RendezId(0);

#[test]
fn sleep_page(rt: HostRuntime) {
    let Opened { kernel, start } = kernel_of(&rt, rt.alloc(), 2, 1);
    let mut started = kernel.start(start);
    let mut driver = forked(&rt, &mut started);
    let mut device = started.proc;
    let (woken, slept) = join(
        &rt,
        || device.wakeup(READY, 1).is_ok(),
        || driver.sleep(&rt, READY, 0).is_ok(),
    );
    assert!(rt; woken && slept);
}

#[test]
fn sleep_page_until_a_moment(rt: HostRuntime) {
    let Opened { kernel, start } = kernel_of(&rt, rt.alloc(), 1, 1);
    let started = kernel.start(start);
    let mut proc = started.proc;
    let Ok(mut clock) = Clock::new(rt.alloc(), 1) else {
        panic!(rt; "no clock")
    };
    let Ok(mut watch) = clock.watch() else {
        panic!(rt; "nobody has its first seat")
    };
    assert!(rt; proc.wakeup(READY, 1).is_ok());
    assert_eq!(rt;
        watch.sleep_within(&rt, &mut proc, READY, 0, 100, 50),
        Ok(())
    );
    assert_eq!(rt; watch.tick(&rt, &mut proc, 150), 0);
}

#[test]
fn postnote_page(rt: HostRuntime) {
    let Opened { kernel, start } = kernel_of(&rt, rt.alloc(), 2, 1);
    let mut started = kernel.start(start);
    let mut driver = forked(&rt, &mut started);
    let mut shell = started.proc;
    let interrupt = NoteSet::of(Note::Interrupt);
    assert_eq!(rt; shell.postnote(driver.pid(), interrupt), Ok(()));
    let Err(Fault::Interrupted(notes)) = driver.sleep(&rt, READY, 0) else {
        panic!(rt; "the note ends the sleep")
    };
    assert!(rt; notes.has(Note::Interrupt));
    assert!(rt; driver.notes().is_empty());
}

fn made<'k>(rt: &impl Abort, roster: &mut Roster<'k>, by: &mut Proc<'k>, flags: Flags) -> Proc<'k> {
    match roster.rfork(by, flags) {
        Ok(Some(child)) => child,
        _ => panic!(rt; "no pid is left"),
    }
}

#[test]
fn postnote_page_of_groups(rt: HostRuntime) {
    let Opened { kernel, start } = kernel_of(&rt, rt.alloc(), 4, 1);
    let Started {
        mut roster,
        mut proc,
    } = kernel.start(start);
    let mut first = made(&rt, &mut roster, &mut proc, Flags::RFPROC);
    let apart = Flags::RFPROC.join(Flags::RFNOTEG);
    let mut second = made(&rt, &mut roster, &mut proc, apart);
    let mut third = made(&rt, &mut roster, &mut second, Flags::RFPROC);
    let alarm = NoteSet::of(Note::Alarm);
    assert_eq!(rt; roster.postnote_group(&mut proc, Pid(1), alarm), Ok(2));
    assert_eq!(rt; (proc.notes(), first.notes()), (alarm, alarm));
    assert!(rt; second.notes().is_empty() && third.notes().is_empty());
    assert!(rt; matches!(roster.rfork(&mut first, Flags::RFNOTEG), Ok(None)));
    assert_eq!(rt; roster.postnote_group(&mut proc, Pid(0), alarm), Ok(1));
}
