//! Numbers in no order that a reader could predict. Each run has a seed of its own, which a crowd
//! prints where it fails; with that seed in the variable `SEED` it makes the same choices again.
use std::alloc::{AllocGlobal, Global};
use std::env::{self, Env};
use std::time::Clock;

/// The choices of one process of a crowd.
#[derive(Drop)]
pub struct Dice {
    state: u64,
}

impl Dice {
    /// The choices of the process with this number: no other has the same.
    pub fn of(seed: u64, number: u64) -> Dice {
        let mut dice = Dice {
            state: seed ^ number.wrapping_mul(0x9e37_79b9_7f4a_7c15),
        };
        dice.roll(1);
        dice
    }

    /// A number below `below`.
    pub fn roll(&mut self, below: u64) -> u64 {
        self.state = self
            .state
            .wrapping_mul(6_364_136_223_846_793_005)
            .wrapping_add(1_442_695_040_888_963_407);
        (self.state >> 33) % below.max(1)
    }

    /// A wait of some moments.
    pub fn moments(&mut self) -> u32 {
        if self.roll(2) == 0 { 1 } else { 4 }
    }
}

/// The seed of this run: what `SEED` says, or else the nanoseconds of the clock.
pub fn seed_of<R: Env + Clock + AllocGlobal>(rt: &R) -> u64 {
    match said(rt) {
        Some(seed) => seed,
        None => rt
            .monotonic()
            .map_or(0, |time| u64::from(time.subsec_nanos())),
    }
}

// What the variable says, if it is there and a number.
fn said<R: Env + AllocGlobal>(rt: &R) -> Option<u64> {
    env::var(rt, "SEED").ok()?.as_str().parse().ok()
}
