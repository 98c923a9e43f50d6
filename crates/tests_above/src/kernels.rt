//! Kernels, processes and crowds of processes. A kernel that is refused memory is asked for once
//! more; where there is no memory then, the test ends.
ghost use Rattle.sleep_wakeup.specs.Starts.{IsStartOf};

use plan9::{Fault, Flags, Kernel, OpenedKernel, Proc, Started};
use std::alloc::Global;
use std::process::Abort;

/// A kernel of this many processes and Rendez.
pub fn kernel_of(rt: &impl Abort, alloc: Global, procs: u64, rendez: u64) -> OpenedKernel
    ensures start { IsStartOf result.kernel result.start }
{
    let made = match Kernel::new(alloc, procs, rendez) {
        Err(Fault::Memory) => Kernel::new(alloc, procs, rendez),
        made => made,
    };
    made.expect(rt, "no kernel")
}

/// The next process of a kernel.
pub fn forked<'k>(rt: &impl Abort, started: &mut Started<'k>) -> Proc<'k> {
    match started.roster.rfork(&mut started.proc, Flags::RFPROC) {
        Ok(Some(child)) => child,
        _ => panic!(rt; "no pid is left"),
    }
}

/// Adds a process to a crowd.
pub fn push<T: Drop>(rt: &impl Abort, jobs: &mut Vec<T>, job: T) {
    if jobs.push(job).is_err() {
        panic!(rt; "no memory for a job");
    }
}
