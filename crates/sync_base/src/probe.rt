//! The points of a call, at which a test can act between two of its steps.

/// The probe is called at each point that a call passes, with the point's number. A call keeps its
/// contract whatever its probe does.
pub trait Probe {
    fn at(&mut self, point: u64);
}

/// The probe of a call that is made without one: it does nothing.
#[derive(Drop)]
pub struct NoProbe;

impl Probe for NoProbe {
    fn at(&mut self, _point: u64) {}
}
