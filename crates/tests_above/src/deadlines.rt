//! Calls of shares and of ends that wait until a moment. The first call of each is ended by a tick,
//! the second by a note, and the third comes in time: of a share in its wait for its turn and in
//! its wait for bytes, of an end that is read block by block, and of a long write at its third
//! write.
use crate::kernels::{forked, kernel_of, push};
use crate::pipes::pipe_of;
use plan9::limits::ATOMIC_SIZE;
use plan9::{
    Clock, Ends, Fault, Kernel, Long, Note, NoteSet, OpenedKernel, OpenedPipe, Pid, Proc,
    ReadAnswer, ReadCalls, ReadEnd, RendezId, RendezStatus, Roster, Share, SharedEnd, Started,
    Watch, WriteCalls, WriteEnd,
};
use std::alloc::Global;
use std::process::Abort;
use std::sync::Wait;
use std::sync::atomic::AtomicU64;
use std::sync::atomic::Ordering::SeqCst;
use std::thread::{Threads, join, yield_now};

/// More than any kernel here has.
const ROOM: usize = 8;

/// The note that ends a wait.
const NOTED: Note = Note::Interrupt;

/// What a process reads: bytes or blocks by a share, or the blocks of its own end.
#[derive(Drop)]
enum Source<'s, 'p> {
    Bytes(Share<'s, 'p>),
    Blocks(Share<'s, 'p>),
    Own(ReadEnd<'p>),
}

/// A process that reads.
#[derive(Drop)]
struct Reader<'s, 'p, 't, 'k> {
    source: Source<'s, 'p>,
    proc: Proc<'k>,
    watch: Watch<'t>,
}

/// A process that writes.
#[derive(Drop)]
struct Writer<'p, 't, 'k> {
    end: WriteEnd<'p>,
    proc: Proc<'k>,
    watch: Watch<'t>,
}

/// Where a process waits, and how many of its calls are over.
#[derive(Drop)]
struct Stay<'r> {
    kernel: &'r Kernel,
    pid: Pid,
    rendez: RendezId,
    over: AtomicU64,
    /// How many times what it wrote was read.
    read: AtomicU64,
}

impl<'r> Stay<'r> {
    fn new(kernel: &'r Kernel, pid: Pid, rendez: RendezId) -> Stay<'r> {
        Stay {
            kernel,
            pid,
            rendez,
            over: AtomicU64::new(0),
            read: AtomicU64::new(0),
        }
    }

    // Whether it waits there now.
    fn is_posted(&self) -> bool {
        let mut rendez = [RendezStatus::default(); ROOM];
        let look = self.kernel.look(&mut [], &mut rendez);
        match look.rendez.get(self.rendez.0 as usize) {
            Some(it) => it.posted == Some(self.pid),
            None => false,
        }
    }

    // Waits until so many of its calls are over.
    fn awaits_end<R: Wait>(&self, rt: &R, calls: u64) {
        for _ in rt.forever() {
            if self.over.load(SeqCst) >= calls {
                return;
            }
            yield_now();
        }
    }

    // The same, and until it waits in the next call.
    fn awaits<R: Wait>(&self, rt: &R, calls: u64) {
        self.awaits_end(rt, calls);
        for _ in rt.forever() {
            if self.is_posted() {
                return;
            }
            yield_now();
        }
    }

    // Waits until what it wrote was read so many times.
    fn awaits_read<R: Wait>(&self, rt: &R, times: u64) {
        for _ in rt.forever() {
            if self.read.load(SeqCst) >= times {
                return;
            }
            yield_now();
        }
    }

    fn ends(&self) {
        self.over.fetch_add(1, SeqCst);
    }
}

/// How the three calls of a reader ended.
type Came = [Result<ReadAnswer, Fault>; 3];

fn read_until<R: Wait>(
    rt: &R,
    alloc: Global,
    reader: &mut Reader<'_, '_, '_, '_>,
    stay: &Stay<'_>,
    moment: u32,
) -> Result<ReadAnswer, Fault> {
    let Reader {
        source,
        proc,
        watch,
    } = reader;
    let mut buffer = [0; 8];
    let mut block = Vec::new(alloc);
    let came = match source {
        Source::Bytes(share) => share.read_within(rt, proc, watch, 0, moment, &mut buffer),
        Source::Blocks(share) => share.read_block_within(rt, proc, watch, 0, moment, &mut block),
        Source::Own(end) => end.read_block_within(rt, proc, watch, 0, moment, &mut block),
    };
    stay.ends();
    came
}

// Reads three times.
fn reads<R: Wait>(
    rt: &R,
    alloc: Global,
    mut reader: Reader<'_, '_, '_, '_>,
    stay: &Stay<'_>,
) -> Came {
    let first = read_until(rt, alloc, &mut reader, stay, 100);
    let second = read_until(rt, alloc, &mut reader, stay, 200);
    [first, second, read_until(rt, alloc, &mut reader, stay, 300)]
}

// Reads three times while the other has the turn, in its first call and then in its third.
fn reads_behind<R: Wait>(
    rt: &R,
    alloc: Global,
    mut reader: Reader<'_, '_, '_, '_>,
    stay: &Stay<'_>,
    other: &Stay<'_>,
) -> Came {
    other.awaits(rt, 0);
    let first = read_until(rt, alloc, &mut reader, stay, 10);
    let second = read_until(rt, alloc, &mut reader, stay, 20);
    other.awaits(rt, 2);
    [first, second, read_until(rt, alloc, &mut reader, stay, 300)]
}

// Ends the first call of a process by a tick at this moment.
fn ends_first<R: Wait + Abort>(
    rt: &R,
    proc: &mut Proc<'_>,
    watch: &mut Watch<'_>,
    stay: &Stay<'_>,
    moment: u64,
) {
    stay.awaits(rt, 0);
    assert_eq!(rt; watch.tick(rt, proc, moment), 1);
}

// Ends its second call by a note, and waits for its end: till then its timer is set.
fn ends_second<R: Wait + Abort>(rt: &R, proc: &mut Proc<'_>, stay: &Stay<'_>) {
    stay.awaits(rt, 1);
    assert_eq!(rt; proc.postnote(stay.pid, NoteSet::of(NOTED)), Ok(()));
    stay.awaits_end(rt, 2);
}

fn ends_two<R: Wait + Abort>(rt: &R, host: &mut Writer<'_, '_, '_>, stay: &Stay<'_>, moment: u64) {
    let Writer {
        end: _,
        proc,
        watch,
    } = host;
    ends_first(rt, proc, watch, stay, moment);
    ends_second(rt, proc, stay);
}

// Writes this, which is read in time.
fn writes<R: Wait + Abort>(rt: &R, alloc: Global, host: &mut Writer<'_, '_, '_>, bytes: &[u8]) {
    assert!(rt; host.end.write(alloc, rt, &mut host.proc, bytes).is_ok());
}

// What each of two calls came to that a tick and a note ended, and a third that read so many bytes.
fn wanted(count: usize) -> Came {
    [
        Err(Fault::TimedOut),
        Err(Fault::Interrupted(NoteSet::of(NOTED))),
        Ok(ReadAnswer::Got(count)),
    ]
}

/// Two that share an end, and one that writes, ticks and posts notes.
#[derive(Drop)]
struct Three<'s, 'p, 't, 'k> {
    one: Reader<'s, 'p, 't, 'k>,
    other: Reader<'s, 'p, 't, 'k>,
    host: Writer<'p, 't, 'k>,
}

/// The two readers, by where they wait: one for bytes, and the other for its turn.
#[derive(Drop)]
struct Stays<'r> {
    one: Stay<'r>,
    other: Stay<'r>,
}

// Both read, one with the turn, and the other behind it.
fn read_both<R: Threads + Wait + Abort + Sync>(
    rt: &R,
    alloc: Global,
    one: Reader<'_, '_, '_, '_>,
    other: Reader<'_, '_, '_, '_>,
    stays: &Stays<'_>,
) -> (Came, Came) {
    join(
        rt,
        || reads(rt, alloc, one, &stays.one),
        || reads_behind(rt, alloc, other, &stays.other, &stays.one),
    )
}

// Ends two calls of each, and writes what both read then.
fn hosts<R: Wait + Abort>(rt: &R, alloc: Global, mut host: Writer<'_, '_, '_>, stays: &Stays<'_>) {
    ends_two(rt, &mut host, &stays.other, 10);
    ends_two(rt, &mut host, &stays.one, 100);
    stays.other.awaits(rt, 2);
    writes(rt, alloc, &mut host, b"plan9");
    writes(rt, alloc, &mut host, b"rio");
}

fn share_until<R: Threads + Wait + Abort + Sync>(
    rt: &R,
    alloc: Global,
    three: Three<'_, '_, '_, '_>,
    stays: &Stays<'_>,
) {
    let Three { one, other, host } = three;
    let ((first, second), ()) = join(
        rt,
        || read_both(rt, alloc, one, other, stays),
        || hosts(rt, alloc, host, stays),
    );
    assert_eq!(rt; first, wanted(5));
    assert_eq!(rt; second, wanted(3));
}

// By a share, bytes or blocks.
fn source_of<'s, 'p>(share: Share<'s, 'p>, by_block: bool) -> Source<'s, 'p> {
    if by_block {
        Source::Blocks(share)
    } else {
        Source::Bytes(share)
    }
}

// The Rendez in which whoever reads waits behind another, or for what its own end has.
fn rendez_of(source: &Source<'_, '_>) -> RendezId {
    match source {
        Source::Bytes(share) | Source::Blocks(share) => share.rendez(),
        Source::Own(end) => end.rendez(),
    }
}

/// The end at which a direction is read, and the one at which it is written.
#[derive(Drop)]
struct Pair<'p> {
    read: ReadEnd<'p>,
    write: WriteEnd<'p>,
}

fn pair_of<'p>(rt: &impl Abort, ends: Ends<'p>) -> Pair<'p> {
    let mut writes = ends.second.parts().writes;
    Pair {
        read: ends.first.parts().read,
        write: next(rt, &mut writes),
    }
}

fn next<T: Drop>(rt: &impl Abort, list: &mut Vec<T>) -> T {
    list.pop().expect(rt, "one is left")
}

fn three_of<'s, 'p, 't, 'k>(
    rt: &impl Abort,
    mut started: Started<'k>,
    mut sources: Vec<Source<'s, 'p>>,
    mut watches: Vec<Watch<'t>>,
    end: WriteEnd<'p>,
) -> Three<'s, 'p, 't, 'k> {
    let one = Reader {
        source: next(rt, &mut sources),
        proc: forked(rt, &mut started),
        watch: next(rt, &mut watches),
    };
    let other = Reader {
        source: next(rt, &mut sources),
        proc: forked(rt, &mut started),
        watch: next(rt, &mut watches),
    };
    let host = Writer {
        end,
        proc: started.proc,
        watch: next(rt, &mut watches),
    };
    Three { one, other, host }
}

fn sources_of<'s, 'p>(
    rt: &impl Abort,
    alloc: Global,
    shares: Vec<Share<'s, 'p>>,
    by_block: bool,
) -> Vec<Source<'s, 'p>> {
    let mut sources = Vec::new(alloc);
    for share in shares {
        push(rt, &mut sources, source_of(share, by_block));
    }
    sources
}

fn read_until_moments<R: Threads + Wait + Abort + Sync>(rt: &R, alloc: Global, by_block: bool) {
    let OpenedKernel { kernel, start } = kernel_of(rt, alloc, 3, 8);
    let mut started = kernel.start(start);
    let OpenedPipe { pipe, start } = pipe_of(rt, alloc, &mut started.roster, 4, 1);
    let Pair { read, write } = pair_of(rt, pipe.ends(start));
    let bytes = read.rendez();
    let mut shared = shared_of(rt, alloc, &mut started.roster, read);
    let mut clock = Clock::new(alloc, 3).expect(rt, "no clock");
    let watches = clock.watches(alloc, rt, 3).expect(rt, "three watches");
    let shares = shared.shares(alloc, rt, 2).expect(rt, "two shares");
    let sources = sources_of(rt, alloc, shares, by_block);
    let three = three_of(rt, started, sources, watches, write);
    let turn = rendez_of(&three.other.source);
    let stays = Stays {
        one: Stay::new(&kernel, three.one.proc.pid(), bytes),
        other: Stay::new(&kernel, three.other.proc.pid(), turn),
    };
    share_until(rt, alloc, three, &stays);
}

// An end that two may share; once more where memory was refused.
fn shared_of<'p>(
    rt: &impl Abort,
    alloc: Global,
    roster: &mut Roster<'_>,
    end: ReadEnd<'p>,
) -> SharedEnd<'p> {
    let end = match SharedEnd::new(alloc, roster, end, 2) {
        Ok(shared) => return shared,
        Err(refused) => refused.end,
    };
    match SharedEnd::new(alloc, roster, end, 2) {
        Ok(shared) => shared,
        Err(_) => panic!(rt; "no turns"),
    }
}

#[test]
fn a_share_reads_until_a_moment(rt: HostRuntime) {
    read_until_moments(&rt, rt.alloc(), false);
}

#[test]
fn a_share_reads_blocks_until_a_moment(rt: HostRuntime) {
    read_until_moments(&rt, rt.alloc(), true);
}

// Refused at 0 and above the processes, and where memory is refused, with the first share still
// there. Else both are given, and it says so.
fn both_come<R: Wait + Abort>(rt: &R, alloc: Global, shared: &mut SharedEnd<'_>) -> bool {
    for count in [0, 3] {
        assert_eq!(rt; shared.shares(alloc, rt, count).err(), Some(Fault::NoProc));
        assert!(rt; shared.has_share());
    }
    match shared.shares(alloc, rt, 2) {
        Ok(shares) => {
            assert_eq!(rt; shares.len(), 2);
            true
        }
        Err(fault) => {
            assert_eq!(rt; fault, Fault::Memory);
            false
        }
    }
}

// Gives both shares, once more where memory was refused; then none is left.
fn give_both<R: Wait + Abort>(rt: &R, alloc: Global, shared: &mut SharedEnd<'_>) {
    if !both_come(rt, alloc, shared) {
        assert!(rt; both_come(rt, alloc, shared));
    }
    assert!(rt; !shared.has_share());
    assert_eq!(rt; why_none(rt, alloc, shared), Some(Fault::NoProc));
}

// Why no share is given, once more where memory was refused.
fn why_none<R: Wait>(rt: &R, alloc: Global, shared: &mut SharedEnd<'_>) -> Option<Fault> {
    let why = shared.shares(alloc, rt, 1).err();
    match why {
        Some(Fault::Memory) => shared.shares(alloc, rt, 1).err(),
        why => why,
    }
}

fn share_one_end<R: Wait + Abort>(rt: &R, alloc: Global, started: Started<'_>) {
    let Started {
        mut roster,
        proc: _,
    } = started;
    let OpenedPipe { pipe, start } = pipe_of(rt, alloc, &mut roster, 4, 1);
    let Pair { read, write: _ } = pair_of(rt, pipe.ends(start));
    give_both(rt, alloc, &mut shared_of(rt, alloc, &mut roster, read));
}

#[test]
fn all_shares_come_or_none(rt: HostRuntime) {
    let OpenedKernel { kernel, start } = kernel_of(&rt, rt.alloc(), 1, 8);
    share_one_end(&rt, rt.alloc(), kernel.start(start));
}

/// Two processes, one at each end of a direction.
#[derive(Drop)]
struct Two<'p, 't, 'k> {
    reader: Reader<'p, 'p, 't, 'k>,
    writer: Writer<'p, 't, 'k>,
}

fn two_of<'p, 't, 'k>(
    rt: &impl Abort,
    mut started: Started<'k>,
    mut watches: Vec<Watch<'t>>,
    pair: Pair<'p>,
) -> Two<'p, 't, 'k> {
    let Pair { read, write } = pair;
    let reader = Reader {
        source: Source::Own(read),
        proc: forked(rt, &mut started),
        watch: next(rt, &mut watches),
    };
    let writer = Writer {
        end: write,
        proc: started.proc,
        watch: next(rt, &mut watches),
    };
    Two { reader, writer }
}

// Ends two calls of the reader, and writes what it reads then.
fn hosts_one<R: Wait + Abort>(
    rt: &R,
    alloc: Global,
    mut host: Writer<'_, '_, '_>,
    stay: &Stay<'_>,
) {
    ends_two(rt, &mut host, stay, 100);
    stay.awaits(rt, 2);
    writes(rt, alloc, &mut host, b"plan9");
}

#[test]
fn an_end_reads_blocks_until_a_moment(rt: HostRuntime) {
    let alloc = rt.alloc();
    let OpenedKernel { kernel, start } = kernel_of(&rt, alloc, 2, 4);
    let mut started = kernel.start(start);
    let OpenedPipe { pipe, start } = pipe_of(&rt, alloc, &mut started.roster, 4, 1);
    let pair = pair_of(&rt, pipe.ends(start));
    let mut clock = Clock::new(alloc, 2).expect(&rt, "no clock");
    let watches = clock.watches(alloc, &rt, 2).expect(&rt, "two watches");
    let Two { reader, writer } = two_of(&rt, started, watches, pair);
    let rendez = rendez_of(&reader.source);
    let stay = Stay::new(&kernel, reader.proc.pid(), rendez);
    let (came, ()) = join(
        &rt,
        || reads(&rt, alloc, reader, &stay),
        || hosts_one(&rt, alloc, writer, &stay),
    );
    assert_eq!(&rt; came, wanted(5));
}

/// Two writes of the atomic size, for which there is room, and a byte, for which there is none.
const LONG: usize = 2 * ATOMIC_SIZE + 1;

// Makes this long write, its call of this number, when what was written before it is read.
fn write_until<R: Wait>(
    rt: &R,
    alloc: Global,
    writer: &mut Writer<'_, '_, '_>,
    stay: &Stay<'_>,
    number: u64,
    bytes: &[u8],
) -> Long {
    stay.awaits_read(rt, number);
    let Writer { end, proc, watch } = writer;
    let came = end.write_long_within(alloc, rt, proc, watch, 0, 10, bytes);
    stay.ends();
    came
}

fn writes_long<R: Wait>(
    rt: &R,
    alloc: Global,
    mut writer: Writer<'_, '_, '_>,
    stay: &Stay<'_>,
    bytes: &[u8],
) -> [Long; 3] {
    let first = write_until(rt, alloc, &mut writer, stay, 0, bytes);
    let second = write_until(rt, alloc, &mut writer, stay, 1, bytes);
    [
        first,
        second,
        write_until(rt, alloc, &mut writer, stay, 2, bytes),
    ]
}

// Reads so many blocks, and returns how many bytes they have.
fn drains<R: Wait + Abort>(
    rt: &R,
    alloc: Global,
    end: &mut ReadEnd<'_>,
    proc: &mut Proc<'_>,
    blocks: u64,
) -> usize {
    let mut block = Vec::new(alloc);
    let mut bytes = 0usize;
    for _ in 0..blocks {
        match end.read_block(rt, proc, &mut block) {
            Ok(ReadAnswer::Got(count)) => bytes = bytes.saturating_add(count),
            _ => panic!(rt; "no block"),
        }
    }
    bytes
}

// Ends two long writes at their third write, and lets the third go on.
fn hosts_long<R: Wait + Abort>(
    rt: &R,
    alloc: Global,
    host: Reader<'_, '_, '_, '_>,
    stay: &Stay<'_>,
) {
    let Reader {
        source,
        mut proc,
        mut watch,
    } = host;
    let Source::Own(mut end) = source else {
        panic!(rt; "a share")
    };
    ends_first(rt, &mut proc, &mut watch, stay, 10);
    stay.awaits_end(rt, 1);
    assert_eq!(rt; drains(rt, alloc, &mut end, &mut proc, 2), 2 * ATOMIC_SIZE);
    stay.read.fetch_add(1, SeqCst);
    ends_second(rt, &mut proc, stay);
    assert_eq!(rt; drains(rt, alloc, &mut end, &mut proc, 2), 2 * ATOMIC_SIZE);
    stay.read.fetch_add(1, SeqCst);
    stay.awaits(rt, 2);
    assert_eq!(rt; drains(rt, alloc, &mut end, &mut proc, 3), LONG);
}

fn long_until<R: Threads + Wait + Abort + Sync>(
    rt: &R,
    alloc: Global,
    two: Two<'_, '_, '_>,
    stay: &Stay<'_>,
) {
    let Two { reader, writer } = two;
    let mut bytes = Vec::new(alloc);
    assert!(rt; bytes.resize(LONG, 7).is_ok());
    let bytes = bytes.as_slice();
    let (came, ()) = join(
        rt,
        || writes_long(rt, alloc, writer, stay, bytes),
        || hosts_long(rt, alloc, reader, stay),
    );
    let noted = Fault::Interrupted(NoteSet::of(NOTED));
    assert_eq!(rt; came, [cut(Fault::TimedOut), cut(noted), whole()]);
}

// What a long write came to that was ended at its third write, and what one that was not.
fn cut(fault: Fault) -> Long {
    Long {
        taken: 2 * ATOMIC_SIZE as u64,
        fault: Some(fault),
    }
}

fn whole() -> Long {
    Long {
        taken: LONG as u64,
        fault: None,
    }
}

#[test]
fn a_long_write_is_cut_at_a_moment(rt: HostRuntime) {
    let alloc = rt.alloc();
    let OpenedKernel { kernel, start } = kernel_of(&rt, alloc, 2, 4);
    let mut started = kernel.start(start);
    let OpenedPipe { pipe, start } = pipe_of(&rt, alloc, &mut started.roster, 2, 1);
    let pair = pair_of(&rt, pipe.ends(start));
    let mut clock = Clock::new(alloc, 2).expect(&rt, "no clock");
    let watches = clock.watches(alloc, &rt, 2).expect(&rt, "two watches");
    let two = two_of(&rt, started, watches, pair);
    let stay = Stay::new(&kernel, two.writer.proc.pid(), two.writer.end.rendez());
    long_until(&rt, alloc, two, &stay);
}
