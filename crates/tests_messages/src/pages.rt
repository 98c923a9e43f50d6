//! The example of the manual page, line for line. `tests/pages/manual_calls` compares it with the
//! page.
use crate::scenes::{forked, kernel_of};
use messages::{Messages, Received};
use sleep_wakeup::Opened;
use std::thread::join;
use sync_base::Fault;

#[test]
fn queue_page(rt: HostRuntime) {
    let Opened { kernel, start } = kernel_of(&rt, rt.alloc(), 2, 2);
    let mut started = kernel.start(start);
    let mut other = forked(&rt, &mut started);
    let made = match Messages::new(rt.alloc(), &mut started.roster, 2, 2) {
        Err(Fault::Memory) => Messages::new(rt.alloc(), &mut started.roster, 2, 2),
        made => made,
    };
    let Ok(mut messages) = made else {
        panic!(rt; "no queue")
    };
    let mut proc = started.proc;
    let Ok(ends) = messages.ends(&rt) else {
        panic!(rt; "somebody had the ends")
    };
    let (mut sender, mut receiver) = (ends.sender, ends.receiver);
    let (sent, received) = join(
        &rt,
        || sender.send(&rt, &mut proc, 7u64).is_ok(),
        || receiver.receive(&rt, &mut other),
    );
    assert!(rt; sent && matches!(received, Ok(Received::Value(7))));
    assert_eq!(rt; sender.close(&rt, &mut proc), Ok(()));
    assert!(rt; matches!(receiver.receive(&rt, &mut other), Ok(Received::End)));
}
