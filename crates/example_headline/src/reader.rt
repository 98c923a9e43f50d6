//! The reader, which may be lent to a thread.
use pipe_dev::{ReadAnswer, ReadEnd};
use sleep_wakeup::Proc;
use std::alloc::Global;
use std::sync::Wait;
use sync_base::{Fault, Piece};

/// How many bytes a read has room for.
const ROOM: usize = 4;

/// The reader: its end and its process, what it got, part by part, and why it stopped where it did
/// not come to the end.
#[derive(Drop)]
pub struct Reader<'p> {
    pub(crate) end: ReadEnd<'p>,
    pub(crate) proc: Proc<'p>,
    pub(crate) got: Vec<Piece>,
    pub(crate) stopped: Option<Fault>,
}

impl<'p> Reader<'p> {
    ghost use Rattle.std.specs.Prelude.{◌≡◌, true, false, Ok, Err};
    ghost use Rattle.sync_base.specs.declared.fault.Fault.{Fault};
    ghost use Rattle.example_headline.specs.Crew.{HasReadOn, HasStopped, IsClearReader, SeesEnd};
    ghost use Rattle.example_headline.specs.Crew.{StopsFor, StopsFrom};

    /// Reads one part, and keeps it; `false` at the end. Memory is taken before the read, so that
    /// what was read is surely kept.
    fn read_once<R: Wait>(&mut self, rt: &R, alloc: Global) -> Result<bool, Fault>
        ensures on { HasReadOn self.old self.new }
        ensures clear { result ≡ Ok true → IsClearReader self.old → IsClearReader self.new }
        ensures end { result ≡ Ok false → IsClearReader self.old → SeesEnd self.new }
        ensures stops { (why : Fault) → result ≡ Err why → IsClearReader self.old
            → StopsFor why self.new }
        ensures still { self.new.stopped ≡ self.old.stopped }
    {
        let mut buffer = vec![in alloc; 0; ROOM]?;
        self.got.reserve(1)?;
        match self.end.read(rt, &mut self.proc, buffer.as_mut_slice())? {
            ReadAnswer::Got(count) => {
                buffer.truncate(count);
                self.got.push_reserved(Piece::of(buffer));
                Ok(true)
            }
            ReadAnswer::End => Ok(false),
        }
    }

    /// Hangs the direction up, since a read was refused for this reason.
    fn hang_up_for(&mut self, why: Fault)
        ensures on { HasReadOn self.old self.new }
        ensures stopped { StopsFor why self.old → HasStopped self.new }
    {
        self.end.hangup(&mut self.proc);
        self.stopped = Some(why);
    }

    /// Reads to the end. Where it can't read on it hangs up, so that no writer waits for ever.
    pub fn read_all<R: Wait>(&mut self, rt: &R, alloc: Global)
        ensures on { HasReadOn self.old self.new }
        ensures stopped { StopsFrom self.old self.new }
    {
        self.stopped = None;
        'reading: for _ in rt.forever() {
            match self.read_once(rt, alloc) {
                Ok(true) => {}
                Ok(false) => return,
                Err(why) => {
                    self.hang_up_for(why);
                    return;
                }
            }
        }
        unreachable!()
    }
}
