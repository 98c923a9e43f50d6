//! Children of a process: one, or many by one call.
ghost use Rattle.std.specs.Prelude.{◌≡◌, IfOk, IfErr, OnErr};
ghost use Rattle.plan9.specs.Forkings.{AreChildren, ForksOne, WhyNoChildren};

use sleep_wakeup::{Proc, Roster};
use std::alloc::Global;
use sync_base::Fault;

/// A child of this process, in its note group: what `rfork` makes with RFPROC alone. After fork(2).
/// Refuses as `NoProc` where no pid is left. Takes no memory and doesn't wait.
pub fn fork<'k>(roster: &mut Roster<'k>, parent: &mut Proc<'k>) -> Result<Proc<'k>, Fault>
    // Refused, and then no pid is used up; or the child has the next pid, and has made no step.
    ensures forked { ForksOne parent.old.process.pid roster.old result roster.new }

    // The parent is as it was.
    ensures parent { parent.new ≡ parent.old }
{
    roster.make_child(parent, false)
}

/// This many children of this process, in its note group. Refuses, in this order, as `NoProc` where
/// too few pids are left and as `Memory`; then no process is made. Takes memory for the list, and
/// doesn't wait. After fork(2).
pub fn forks<'k>(
    alloc: Global,
    roster: &mut Roster<'k>,
    parent: &mut Proc<'k>,
    count: u64,
) -> Result<Vec<Proc<'k>>, Fault>
    // Refused first, and then no pid is used up.
    ensures fault { IfErr result (WhyNoChildren roster.old count) }
    ensures refused { OnErr result (roster.new ≡ roster.old) }

    // Otherwise they have the next pids, and have made no step.
    ensures made { IfOk result (λ made.
        AreChildren roster.old parent.old.process.pid count made.items roster.new) }

    // The parent is as it was.
    ensures parent { parent.new ≡ parent.old }
{
    let (pids, _) = roster.left();
    if pids < count {
        return Err(Fault::NoProc);
    }
    let Ok(mut children) = Vec::with_capacity(alloc, count as usize) else {
        return Err(Fault::Memory);
    };
    'forking: for _ in 0..count {
        let Ok(child) = fork(roster, parent) else {
            unreachable!()
        };
        children.push_reserved(child);
    }
    Ok(children)
}
