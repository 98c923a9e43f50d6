//! The counter that the tests of waiters call. All other tests of locks are in `tests_objects`.
ghost use Rattle.std.specs.Prelude.{ℕ, ◌+◌, ◌%◌, ◌^◌, None};
ghost use Rattle.kernel_lock.specs.Seats.{IsSeatOf};

use crate::{Locked, Object, Opened};
use std::alloc::Global;
use std::process::Abort;

/// A call adds its number, and answers the sum, which wraps at 2^64.
#[derive(Drop)]
pub struct Counter {
    pub sum: u64,
}

impl Object for Counter {
    type Call = u64;

    type Reply = u64;

    ghost State = { ℕ };

    ghost definition = { record {
      state = λ counter. counter.sum;
      answer = λ sum amount. (sum + amount) % 2 ^ 64;
      after = λ sum amount. (sum + amount) % 2 ^ 64;
      named = λ amount. None;
    } };

    fn caller(_amount: &u64) -> Option<u64> {
        None
    }

    fn run(&mut self, amount: u64) -> u64 {
        self.sum = self.sum.wrapping_add(amount);
        self.sum
    }
}

/// A lock of one seat over a counter of 0.
pub fn open(rt: &impl Abort, alloc: Global) -> Opened<Counter>
    ensures { IsSeatOf result.lock result.seat }
{
    match Locked::new(alloc, Counter { sum: 0 }, 1) {
        Ok(opened) => opened,
        Err(_) => panic!(rt; "no memory for a lock"),
    }
}
