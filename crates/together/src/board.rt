//! What the threads of a team share.
use crate::gate::{Decision, Gate};
use crate::roll::Roll;
use std::alloc::{AllocError, Global};
use std::sync::OnceLock;
use sync_base::RendezId;

/// What the threads of a team share.
#[derive(Drop)]
pub struct Board {
    pub(crate) decision: OnceLock<Decision>,
    pub(crate) roll: Roll,
    /// Where the caller sleeps until a job has ended.
    pub(crate) desk: Gate,
}

impl Board {
    /// A board for this many jobs: nothing is decided, and none has ended.
    pub fn new(alloc: Global, jobs: usize, desk: Gate) -> Result<Board, AllocError> {
        Ok(Board {
            decision: OnceLock::new(),
            roll: Roll::new(alloc, jobs)?,
            desk,
        })
    }

    /// The gate of the worker with this number.
    pub fn gate(&self, number: usize) -> Gate {
        let above = (number as u64).saturating_add(1);
        Gate {
            rendez: RendezId(self.desk.rendez.0.saturating_add(above)),
            level: self.desk.level,
        }
    }
}
