//! What the threads of a team do, who is told of it, and what comes back from them.
ghost use Rattle.std.specs.Prelude.{◌≡◌};

use sleep_wakeup::Proc;
use sync_base::Fault;

/// What one thread does. The jobs of a team are of one type: an enum, where they differ, with a
/// variant for each kind of job.
pub trait Job<R> {
    ghost use Rattle.std.specs.Prelude.{⊤};

    /// What it comes to.
    type Out: Drop;

    /// What one run of the job may come to. By default anything.
    ghost gives: { Self → Self.Out → Type 0 } = { λ job out. ⊤ };

    /// Does the job, by this process.
    fn run(self, rt: &R, proc: &mut Proc<'_>) -> Self::Out
        ensures { gives self result };
}

/// Who is told of each job that has ended, on the thread that called the team.
pub trait Told<R> {
    /// The job with this number has ended. The first one has the number 0.
    fn told(&mut self, rt: &R, proc: &mut Proc<'_>, number: usize);
}

/// Nobody is told.
impl<R> Told<R> for () {
    fn told(&mut self, _rt: &R, _proc: &mut Proc<'_>, _number: usize) {}
}

/// A job, and the process that does it.
#[derive(Drop)]
pub struct Worker<'k, J> {
    pub proc: Proc<'k>,
    pub job: J,
}

/// What a job came to, and the process that did it.
#[derive(Drop)]
pub struct Ended<'k, T> {
    pub proc: Proc<'k>,
    pub out: T,
}

/// A team that did not start: why, and all its workers, in their order. No job has made a step.
#[derive(Drop)]
pub struct Refused<'k, J> {
    pub fault: Fault,
    pub workers: Vec<Worker<'k, J>>,
}

impl<'k, J: Drop> From<Refused<'k, J>> for Fault {
    ghost from_gives = { λ refused fault. fault ≡ refused.fault };

    fn from(refused: Refused<'k, J>) -> Fault {
        refused.fault
    }
}
