//! Many of a kind at once, as the seats of a semaphore: the first one, and each other split from
//! the one before it.
ghost use Rattle.std.specs.Prelude.{◌≡◌, ◌≤◌, ◌<◌, [], IfOk, IfErr, OnOk, OnErr};
ghost use Rattle.std.specs.Vec.{vec_capacity};
ghost use Rattle.sync_base.specs.declared.fault.Fault.TheVariants.{NoProc};
ghost use Rattle.plan9.specs.Chains.{AreChained, MayHave, RunsOut, WhyNoRoom};

use std::alloc::Global;
use std::mem;
use std::sync::Wait;
use sync_base::Fault;

/// What gives a further one of its kind, until its object has given all.
pub(crate) trait Splits: Sized {
    ghost use Rattle.std.specs.Prelude.{◌≡◌, IfOk, IfErr, OnErr};
    ghost use Rattle.sync_base.specs.declared.fault.Fault.TheVariants.{NoProc};

    /// Who gives, before that and after it, and who is given.
    ghost gives: { Self → Self → Self → Type 0 };

    /// All were given, as far as this one can know.
    ghost knows_none: { Self → Self → Type 0 };

    /// A further one.
    fn further<R: Wait>(&mut self, rt: &R) -> Result<Self, Fault>
        ensures fault { IfErr result (λ fault. fault ≡ NoProc) }
        ensures refused { OnErr result (knows_none self.old self.new) }
        ensures given { IfOk result (gives self.old self.new) };
}

/// Room for so many, where there are this many in all.
pub(crate) fn room_for<T: Drop>(alloc: Global, procs: u64, count: u64) -> Result<Vec<T>, Fault>
    ensures may { OnOk result (MayHave procs count) }
    ensures fault { IfErr result (WhyNoRoom procs count) }
    ensures none { IfOk result (λ list. list.items ≡ []) }
    ensures room { IfOk result (λ list. count ≤ vec_capacity list) }
{
    if count == 0 || procs < count {
        return Err(Fault::NoProc);
    }
    let Ok(list) = Vec::with_capacity(alloc, count as usize) else {
        return Err(Fault::Memory);
    };
    Ok(list)
}

/// So many, in the order of their numbers, in this list: the first one, and each other given by the
/// one before it.
pub(crate) fn split_into<S: Splits + Drop, R: Wait>(
    rt: &R,
    first: S,
    list: Vec<S>,
    count: u64,
) -> Result<Vec<S>, Fault>
    requires one { 0 < count }
    requires none { list.items ≡ [] }
    requires room { count ≤ vec_capacity list }

    // Where the last of them could give none, there are too few.
    ensures fault { IfErr result (λ fault. fault ≡ NoProc) }
    ensures out { OnErr result (RunsOut S.gives (λ one. one ≡ first) S.knows_none count) }
    ensures many { IfOk result (λ list.
        AreChained S.gives (λ one. one ≡ first) count list.items) }
{
    let (mut list, mut last) = (list, first);
    'splitting: for _ in 1..count {
        let next = last.further(rt)?;
        list.push_reserved(mem::replace(&mut last, next));
    }
    list.push_reserved(last);
    Ok(list)
}
