//! Many pipes at once: one function owns them, and lends their ends to the next.
ghost use Rattle.std.specs.Prelude.{◌≡◌, IfOk, IfErr, OnOk, OnErr};
ghost use Rattle.sync_base.specs.declared.fault.Fault.TheVariants.{Memory};
ghost use Rattle.block_queue.specs.Opening.{IsBadQueue};
ghost use Rattle.sleep_wakeup.specs.Kernel.{HasRendez, rendez_less};
ghost use Rattle.pipe_dev.specs.Openings.{rendez_for};
ghost use Rattle.plan9.specs.Pipes.{AreNewPipes, HaveRoom, IsNewPipe, MayOpen, WhyNoPipes, size};

use pipe_dev::{Ends, Opened, Pipe, PipeStart};
use sleep_wakeup::Roster;
use std::alloc::Global;
use sync_base::limits::{MAX_PIPE_LIMIT, MAX_WRITERS};
use sync_base::{Fault, Mode};

/// Pipes of one size, in the order in which they were made.
#[derive(Drop)]
pub struct Pipes {
    pipes: Vec<Pipe>,
}

/// What the ends of the pipes are made from, and room for their list. `Pipes::ends` spends it.
#[derive(Drop)]
#[must_use]
pub struct PipesStart<'p> {
    starts: Vec<PipeStart<'p>>,
    room: Vec<Ends<'p>>,
}

/// New pipes, and what their ends are made from.
#[derive(Drop)]
pub struct OpenedPipes<'p> {
    pub pipes: Pipes,
    pub start: PipesStart<'p>,
}

impl Pipes {
    ghost use Rattle.std.specs.Prelude.{◌≡◌, IfOk, IfErr};
    ghost use Rattle.sync_base.specs.declared.mode.Mode.TheVariants.{Message, Stream};
    ghost use Rattle.plan9.specs.Pipes.{AreAllEnds, AreNewPipes, AreStartsOf, WhyNoPipes, size};

    /// This many new pipes, each as `Pipe::new` makes it. They take `2 * (1 + writers)` Rendez of
    /// the kernel each. Takes memory also for the list of their ends, and doesn't wait.
    ///
    /// Refuses, in this order, as `BadSize` and as `NoRendez` where too few are left for all of
    /// them, and then no Rendez is used up; and as `Memory`, and then those of the pipes that were
    /// made before are used up, and no others.
    pub fn new<'p>(
        alloc: Global,
        roster: &mut Roster<'_>,
        count: u64,
        limit: u64,
        writers: u64,
    ) -> Result<OpenedPipes<'p>, Fault>
        ensures fault { IfErr result
            (WhyNoPipes count (size Message limit writers) roster.old roster.new) }
        ensures opened { IfOk result
            (AreNewPipes count (size Message limit writers) roster.old roster.new) }
    {
        Pipes::open(alloc, roster, Mode::Message, count, limit, writers)
    }

    /// This many new pipes in stream mode, each as `Pipe::new_stream` makes it. Takes and refuses
    /// what `new` does, and doesn't wait.
    pub fn new_stream<'p>(
        alloc: Global,
        roster: &mut Roster<'_>,
        count: u64,
        limit: u64,
        writers: u64,
    ) -> Result<OpenedPipes<'p>, Fault>
        ensures fault { IfErr result
            (WhyNoPipes count (size Stream limit writers) roster.old roster.new) }
        ensures opened { IfOk result
            (AreNewPipes count (size Stream limit writers) roster.old roster.new) }
    {
        Pipes::open(alloc, roster, Mode::Stream, count, limit, writers)
    }

    // This many new pipes, read in this mode.
    fn open<'p>(
        alloc: Global,
        roster: &mut Roster<'_>,
        mode: Mode,
        count: u64,
        limit: u64,
        writers: u64,
    ) -> Result<OpenedPipes<'p>, Fault>
        ensures fault { IfErr result
            (WhyNoPipes count (size mode limit writers) roster.old roster.new) }
        ensures opened { IfOk result
            (AreNewPipes count (size mode limit writers) roster.old roster.new) }
    {
        if limit == 0 || limit > MAX_PIPE_LIMIT || writers == 0 || writers > MAX_WRITERS {
            return Err(Fault::BadSize);
        }
        let (_, rendez) = roster.left();
        if rendez / (2 * (1 + writers)) < count {
            return Err(Fault::NoRendez);
        }
        make(alloc, roster, mode, count, limit, writers)
    }

    /// The two ends of each pipe, in order, of the start that was made with the pipes. Takes no
    /// memory and doesn't wait.
    pub fn ends<'p>(&'p self, start: PipesStart<'p>) -> Vec<Ends<'p>>
        requires start { AreStartsOf self.now start }

        // Each pair is what `Pipe::ends` gives.
        ensures ends { AreAllEnds self.now.pipes.items start.entry.starts.items result.items }
    {
        let PipesStart { starts, room } = start;
        let mut ends = room;
        'lending: for start in starts {
            let pipe = &self.pipes[ends.len()];
            ends.push_reserved(pipe.ends(start));
        }
        ends
    }
}

// This many new pipes of this size, where pipes can be of it and Rendez are left for all.
fn make<'p>(
    alloc: Global,
    roster: &mut Roster<'_>,
    mode: Mode,
    count: u64,
    limit: u64,
    writers: u64,
) -> Result<OpenedPipes<'p>, Fault>
    requires may { MayOpen count (size mode limit writers) roster.old }
    ensures fault { IfErr result
        (WhyNoPipes count (size mode limit writers) roster.old roster.new) }
    ensures opened { IfOk result
        (AreNewPipes count (size mode limit writers) roster.old roster.new) }
{
    let Ok(mut opened) = with_room(alloc, count as usize) else {
        return Err(Fault::Memory);
    };
    'making: for _ in 0..count {
        let Ok(next) = make_one(alloc, roster, mode, limit, writers) else {
            return Err(Fault::Memory);
        };
        opened.pipes.pipes.push_reserved(next.pipe);
        opened.start.starts.push_reserved(next.start);
    }
    Ok(opened)
}

// No pipes, and room for this many and for their ends.
fn with_room<'p>(alloc: Global, count: usize) -> Result<OpenedPipes<'p>, Fault>
    ensures fault { IfErr result (λ fault. fault ≡ Memory) }
    ensures room { IfOk result (HaveRoom count) }
{
    let pipes = Vec::with_capacity(alloc, count)?;
    let starts = Vec::with_capacity(alloc, count)?;
    let room = Vec::with_capacity(alloc, count)?;
    Ok(OpenedPipes {
        pipes: Pipes { pipes },
        start: PipesStart { starts, room },
    })
}

// A new pipe of this size, where pipes can be of it and Rendez are left for one.
fn make_one<'p>(
    alloc: Global,
    roster: &mut Roster<'_>,
    mode: Mode,
    limit: u64,
    writers: u64,
) -> Result<Opened<'p>, Fault>
    requires size { ¬ IsBadQueue limit writers }
    requires rendez { HasRendez roster.old (rendez_for writers) }
    ensures fault { IfErr result (λ fault. fault ≡ Memory) }
    ensures refused { OnErr result (roster.new ≡ roster.old) }
    ensures opened { IfOk result
        (IsNewPipe (size mode limit writers) roster.old.words roster.old.rendez) }
    ensures given { OnOk result (roster.new ≡ rendez_less (rendez_for writers) roster.old) }
{
    match mode {
        Mode::Message => Pipe::new(alloc, roster, limit, writers),
        Mode::Stream => Pipe::new_stream(alloc, roster, limit, writers),
    }
}
