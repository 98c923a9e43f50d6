//! A reader and writers that have all ends of one direction.
ghost use Rattle.std.specs.Prelude.{◌≡◌, IfOk, IfErr, length, map, vec_items};
ghost use Rattle.std.specs.List.{AllZip};
ghost use Rattle.pipe_dev.specs.Rendezes.{OwnsRow};
ghost use Rattle.example_headline.specs.Crew.{IsClearCrew, IsFresh, IsReady, HasReadOn};
ghost use Rattle.example_headline.specs.Crew.{HasWrittenOn, EndsFrom, HasReadEnd, StopsFrom};
ghost use Rattle.example_headline.specs.Crew.{WhyNotMustered, messages_of};

use crate::reader::Reader;
use crate::settling::Room;
use crate::writer::Writer;
use crate::writing::write_and_hang_up;
use pipe_dev::{ReadEnd, WriteEnd};
use sleep_wakeup::{Proc, Roster};
use std::alloc::Global;
use std::sync::Wait;
use std::thread::{Threads, join_mut};
use sync_base::{Fault, Flags, Piece};

/// A reader and writers, and room for when they are taken apart. A crew can't be dropped: its owner
/// has to settle it.
pub struct Crew<'p> {
    pub(crate) reader: Reader<'p>,
    pub(crate) writers: Vec<Writer<'p>>,
    pub(crate) room: Room<'p>,
}

/// Gives each end of a new direction to a process, and each writer its messages. Refuses as
/// `BadSize` where there are not as many lists of messages as writers, as `Memory`, and as `NoProc`
/// where the roster has too few pids left.
pub fn muster<'p>(
    alloc: Global,
    roster: Roster<'p>,
    reader: Proc<'p>,
    read: ReadEnd<'p>,
    writes: Vec<WriteEnd<'p>>,
    messages: Vec<Vec<Piece>>,
) -> Result<Crew<'p>, Fault>
    requires fresh { IsFresh read writes.items }
    requires kernel { OwnsRow reader.words read.row }
    requires roster { roster.words ≡ reader.words }
    ensures fault { IfErr result (WhyNotMustered roster.entry (length writes.entry.items)
        (length messages.items)) }
    ensures ready { IfOk result IsReady }
    ensures clear { IfOk result IsClearCrew }
    ensures read { IfOk result (HasReadEnd read.entry) }
    ensures given { IfOk result (λ crew.
        messages_of crew.writers.items ≡ map vec_items messages.items) }
{
    if messages.len() != writes.len() {
        return Err(Fault::BadSize);
    }
    let (mut roster, mut parent) = (roster, reader);
    let mut lists = messages.into_iter();
    let room = Room::new(alloc, writes.len())?;
    let mut writers = Vec::with_capacity(alloc, writes.len())?;
    'mustering: for end in writes {
        let child = roster.rfork(&mut parent, Flags::RFPROC)?;
        let (Some(proc), Some(messages)) = (child, lists.next()) else {
            return Err(Fault::BadSize);
        };
        writers.push_reserved(Writer {
            end,
            proc,
            messages,
            accepted: 0,
            refused: None,
        });
    }
    let reader = Reader {
        end: read,
        proc: parent,
        got: Vec::new(alloc),
        stopped: None,
    };
    Ok(Crew {
        reader,
        writers,
        room,
    })
}

/// Writers and reader at once. The ends are lent to the threads, so what each did is known
/// afterwards.
pub fn work<'p, R: Threads + Wait + Sync>(rt: &R, alloc: Global, crew: Crew<'p>) -> Crew<'p>
    ensures reader { HasReadOn crew.entry.reader result.reader }
    ensures stopped { StopsFrom crew.entry.reader result.reader }
    ensures writers { AllZip HasWrittenOn crew.entry.writers.items result.writers.items }
    ensures ended { AllZip EndsFrom crew.entry.writers.items result.writers.items }
    ensures room { result.room ≡ crew.entry.room }
{
    let Crew {
        mut reader,
        mut writers,
        room,
    } = crew;
    join_mut(
        rt,
        &mut ||
            ensures on { AllZip HasWrittenOn writers.entry.items writers.exit.items }
            ensures ended { AllZip EndsFrom writers.entry.items writers.exit.items }
        { write_and_hang_up(rt, alloc, writers.as_mut_slice()) },
        &mut ||
            ensures on { HasReadOn reader.entry reader.exit }
            ensures stopped { StopsFrom reader.entry reader.exit }
        { reader.read_all(rt, alloc) },
    );
    Crew {
        reader,
        writers,
        room,
    }
}
