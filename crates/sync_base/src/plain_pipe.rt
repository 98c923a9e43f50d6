//! One direction of a pipe for one thread, after pipe(2) and pipe(3). It keeps the writes that are
//! not read whole, so what it holds is bounded by its limit. Its mode says whether a read stops at
//! the end of a write.
ghost use Rattle.std.specs.Prelude.{◌≡◌, ◌≢◌, [], take, ◌++◌, IsErr, ◌⊎◌, ◌↔◌, ◌<◌, ℕ, length};
ghost use Rattle.std.specs.Prelude.{drop, Ok, IfOk, IfErr, OnOk, OnErr, IsErrOf};
ghost use Rattle.sync_base.specs.Pipe.{PipeState, opening, stream_opening, opening_in};
ghost use Rattle.sync_base.specs.Pipe.{write_answer, after_write, read_answer, after_read};
ghost use Rattle.sync_base.specs.Pipe.{after_hangup, IsGot, message_answer, after_message};
ghost use Rattle.sync_base.specs.Pipe.{bytes_read, nothing_read, reach_of};
ghost use Rattle.sync_base.specs.PlainPipe.{Shows, IsBadLimit, kept_waiting, kept_bytes};
ghost use Rattle.sync_base.specs.PlainPipe.{kept_after, first_bytes, lent_answer};
ghost use Rattle.sync_base.specs.declared.mode.Mode.TheVariants.{Message, Stream};
ghost use Rattle.sync_base.specs.declared.limits.TheConstants.{ATOMIC_SIZE};

use crate::answers::{PeekAnswer, ReadAnswer, WriteAnswer};
use crate::fault::Fault;
use crate::limits::{ATOMIC_SIZE, MAX_PIPE_LIMIT};
use crate::mode::Mode;
use crate::piece::Piece;
use std::alloc::{AllocError, Global};
use std::collections::VecDeque;
use std::marker::Model;

/// A write that is not read whole.
#[derive(Debug, Drop)]
struct HeldWrite {
    writer: u64,
    bytes: Vec<u8>,
}

impl Model for HeldWrite {
    ghost use Rattle.sync_base.specs.Write.{Write};

    ghost Value = { Write };

    ghost view = { λ held. record { writer = held.writer; bytes = held.bytes.items } };
}

/// One direction of a pipe. Contracts speak of each [`PipeState`] that it shows: all that was
/// accepted, and the position of the next read.
#[derive(Debug, Drop)]
pub struct PlainPipe {
    limit: u64,
    mode: Mode,
    held: VecDeque<HeldWrite>,
    /// How many bytes of the first write held are read.
    offset: usize,
    hung: bool,
    /// Blocks of writes that were passed whole, for writes to come: each has its memory already.
    spare: Vec<Vec<u8>>,
}

impl Model for PlainPipe {
    ghost use Rattle.std.specs.Prelude.{◌<◌, length};
    ghost use Rattle.sync_base.specs.PlainPipe.{Contents, first_bytes};

    ghost Value = { Contents };

    ghost view = { λ pipe. record {
      limit = pipe.limit;
      mode = pipe.mode;
      unread = pipe.held.items;
      offset = pipe.offset;
      hung = pipe.hung;
    } };

    // A write that is begun has a byte left.
    ghost invariant = { λ pipe. 0 < pipe.offset →
        pipe.offset < length (first_bytes pipe.held.items) };
}

impl PlainPipe {
    /// An empty pipe that holds at most `limit` writes that no read has begun. A read stops at the
    /// end of a write.
    ///
    /// BadSize: the limit is not from 1 to 1,024. Memory: room for as many writes was refused.
    pub fn new(alloc: Global, limit: u64) -> Result<Self, Fault>
        ensures opening { IfOk result (λ pipe. Shows pipe (opening limit)) }
        ensures bad_size { IsErrOf result Fault.BadSize ↔ IsBadLimit limit }
        ensures faults { IfErr result (λ fault.
            (fault ≡ Fault.BadSize) ⊎ (fault ≡ Fault.Memory)) }
    {
        PlainPipe::new_in(alloc, Mode::Message, limit)
    }

    /// The same in stream mode: a read goes on from write to write.
    ///
    /// BadSize: the limit is not from 1 to 1,024. Memory: room for as many writes was refused.
    pub fn new_stream(alloc: Global, limit: u64) -> Result<Self, Fault>
        ensures opening { IfOk result (λ pipe. Shows pipe (stream_opening limit)) }
        ensures bad_size { IsErrOf result Fault.BadSize ↔ IsBadLimit limit }
        ensures faults { IfErr result (λ fault.
            (fault ≡ Fault.BadSize) ⊎ (fault ≡ Fault.Memory)) }
    {
        PlainPipe::new_in(alloc, Mode::Stream, limit)
    }

    fn new_in(alloc: Global, mode: Mode, limit: u64) -> Result<Self, Fault>
        ensures opening { IfOk result (λ pipe. Shows pipe (opening_in mode limit)) }
        ensures bad_size { IsErrOf result Fault.BadSize ↔ IsBadLimit limit }
        ensures faults { IfErr result (λ fault.
            (fault ≡ Fault.BadSize) ⊎ (fault ≡ Fault.Memory)) }
    {
        if limit == 0 || limit > MAX_PIPE_LIMIT {
            return Err(Fault::BadSize);
        }
        // The begun write stands beside those that the limit counts, and each has one block.
        let most = limit as usize + 1;
        let held = VecDeque::with_capacity(alloc, most)?;
        let spare = Vec::with_capacity(alloc, most)?;
        Ok(PlainPipe {
            limit,
            mode,
            held,
            offset: 0,
            hung: false,
            spare,
        })
    }

    /// Offers a write. It never waits, and takes memory for the bytes of a write that is taken.
    ///
    /// TooBig: the write is longer than the atomic size. Memory: in place of `Taken`. A write that
    /// is refused, or answered `Full` or `Hungup`, changes nothing.
    pub fn write(&mut self, writer: u64, bytes: &[u8]) -> Result<WriteAnswer, Fault>
        // Refused first, and then nothing changes.
        ensures too_big { IsErrOf result Fault.TooBig ↔ (ATOMIC_SIZE < length bytes.now) }
        ensures faults { IfErr result (λ fault. (fault ≡ Fault.TooBig) ⊎ (fault ≡ Fault.Memory)) }
        ensures err { OnErr result (self.new ≡ self.old) }

        // Otherwise the first answer that applies.
        ensures answer { (s : PipeState) → Shows self.old s →
            IfOk result (λ answer. answer ≡ write_answer s) }
        ensures after { (s : PipeState) → Shows self.old s → IfOk result (λ answer.
            Shows self.new (after_write s (record { writer = writer; bytes = bytes.now }) answer)) }
        ensures memory { (s : PipeState) → Shows self.old s → IsErrOf result Fault.Memory →
            write_answer s ≡ WriteAnswer.Taken }
    {
        if bytes.len() > ATOMIC_SIZE {
            return Err(Fault::TooBig);
        }
        if self.hung {
            return Ok(WriteAnswer::Hungup);
        }
        if self.waiting() == self.limit {
            return Ok(WriteAnswer::Full);
        }
        let block = self.block_of(bytes)?;
        self.held.push_back(HeldWrite {
            writer,
            bytes: block,
        })?;
        Ok(WriteAnswer::Taken)
    }

    /// Reads at most `most` bytes: of the next write alone, or in stream mode of as many writes as
    /// they span. It never waits, and takes memory for the bytes that it gives. `peek` and then
    /// `pass` do the same in two calls.
    ///
    /// BadCount: `most` is 0. Memory: in place of `Got`. Neither fault changes anything: no empty
    /// write is passed.
    pub fn read(&mut self, most: u64) -> Result<ReadAnswer, Fault>
        // Refused first, and then nothing changes.
        ensures bad_count { IsErrOf result Fault.BadCount ↔ (most ≡ 0) }
        ensures faults { IfErr result (λ fault.
            (fault ≡ Fault.BadCount) ⊎ (fault ≡ Fault.Memory)) }
        ensures err { OnErr result (self.new ≡ self.old) }

        // Otherwise the first answer that applies.
        ensures answer { (s : PipeState) → Shows self.old s →
            IfOk result (λ answer. answer ≡ read_answer most s) }
        ensures after { (s : PipeState) → Shows self.old s →
            OnOk result (Shows self.new (after_read most s)) }
        ensures memory { (s : PipeState) → Shows self.old s → IsErrOf result Fault.Memory →
            IsGot (read_answer most s) }
    {
        let alloc = *self.held.allocator();
        let mut room = Vec::new(alloc);
        let answer = match self.peek(most, &mut room)? {
            PeekAnswer::Got(bytes) => ReadAnswer::Got(Piece::of(Vec::from_slice(alloc, bytes)?)),
            PeekAnswer::Empty => ReadAnswer::Empty,
            PeekAnswer::End => ReadAnswer::End,
        };
        self.pass(most);
        Ok(answer)
    }

    /// The answer that a read of at most `most` bytes would get, with its bytes lent. Nothing
    /// changes. In stream mode the bytes are joined in `room`, which takes memory where it is too
    /// small; else `room` is not looked at, and no memory is taken.
    ///
    /// BadCount: `most` is 0. Memory: in stream mode, in place of `Got`.
    pub fn peek<'a>(&'a self, most: u64, room: &'a mut Vec<u8>) -> Result<PeekAnswer<'a>, Fault>
        ensures bad_count { IsErrOf result Fault.BadCount ↔ (most ≡ 0) }
        ensures faults { IfErr result (λ fault.
            (fault ≡ Fault.BadCount) ⊎ (fault ≡ Fault.Memory)) }
        ensures answer { (s : PipeState) → Shows self.now s →
            IfOk result (λ lent. lent_answer lent ≡ read_answer most s) }
        ensures memory { (s : PipeState) → Shows self.now s → IsErrOf result Fault.Memory →
            (s.mode ≡ Stream) × IsGot (read_answer most s) }
    {
        if most == 0 {
            return Err(Fault::BadCount);
        }
        match self.mode {
            Mode::Message => Ok(self.peek_piece(most)),
            Mode::Stream => Ok(self.peek_bytes(most, room)?),
        }
    }

    /// Moves the position as a read of at most `most` bytes does, and gives no bytes. The block of
    /// a write that is used up is kept for a write to come. It takes no memory.
    pub fn pass(&mut self, most: u64)
        ensures { (s : PipeState) → Shows self.old s → Shows self.new (after_read most s) }
    {
        match self.mode {
            Mode::Message => self.pass_piece(most),
            Mode::Stream => self.pass_bytes(most),
        }
    }

    /// Closes the direction for writes, for good. What was accepted stays readable.
    pub fn hangup(&mut self)
        ensures { (s : PipeState) → Shows self.old s → Shows self.new (after_hangup s) }
    {
        self.hung = true;
    }

    /// The next piece of the next write.
    fn peek_piece(&self, most: u64) -> PeekAnswer<'_>
        ensures { (s : PipeState) → Shows self.now s → lent_answer result ≡ message_answer most s }
    {
        let Some(first) = self.held.front() else {
            return self.lend_nothing();
        };
        PeekAnswer::Got(front_of(&first.bytes[self.offset..], most))
    }

    /// The next bytes, of however many writes.
    fn peek_bytes<'a>(&self, most: u64, room: &'a mut Vec<u8>) -> Result<PeekAnswer<'a>, AllocError>
        ensures answer { IfOk result (λ lent.
            lent_answer lent ≡ bytes_read self.now.hung (take most (kept_bytes self.now))) }
        ensures some { IsErr result → take most (kept_bytes self.now) ≢ [] }
    {
        room.clear();
        self.join_onto(most, room)?;
        if room.is_empty() {
            return Ok(self.lend_nothing());
        }
        Ok(PeekAnswer::Got(room.as_slice()))
    }

    /// The answer to a read that finds no byte.
    fn lend_nothing<'a>(&self) -> PeekAnswer<'a>
        ensures { lent_answer result ≡ nothing_read self.now.hung }
    {
        if self.hung {
            PeekAnswer::End
        } else {
            PeekAnswer::Empty
        }
    }

    /// Appends the next bytes to `room`: all that there are, but at most `most`.
    fn join_onto(&self, most: u64, room: &mut Vec<u8>) -> Result<(), AllocError>
        ensures joined { OnOk result
            (room.new.items ≡ room.old.items ++ take most (kept_bytes self.now)) }
        ensures some { IsErr result → take most (kept_bytes self.now) ≢ [] }
    {
        let mut left = most;
        let mut offset = self.offset;
        'joining: for at in 0..self.held.len() {
            if left == 0 {
                return Ok(());
            }
            let part = front_of(&self.held[at].bytes[offset..], left);
            append(room, part)?;
            left -= part.len() as u64;
            offset = 0;
        }
        Ok(())
    }

    /// Moves the position after the next piece of the next write.
    fn pass_piece(&mut self, most: u64)
        ensures { (s : PipeState) → Shows self.old s → Shows self.new (after_message most s) }
    {
        let Some(first) = self.held.front() else {
            return;
        };
        if (first.bytes.len() - self.offset) as u64 > most {
            self.offset += most as usize;
            return;
        }
        self.pass_first();
    }

    /// Moves the position after the next bytes, of however many writes.
    fn pass_bytes(&mut self, most: u64)
        ensures { self.new ≡ kept_after self.old (reach_of most self.old.offset self.old.unread) }
    {
        let mut left = most;
        'passing: while left > 0 {
            let Some(first) = self.held.front() else {
                return;
            };
            let rest = (first.bytes.len() - self.offset) as u64;
            if rest > left {
                self.offset += left as usize;
                return;
            }
            left -= rest;
            self.pass_first();
        }
    }

    /// A block of these bytes, in a spare block where there is one.
    fn block_of(&mut self, bytes: &[u8]) -> Result<Vec<u8>, AllocError>
        ensures model { self.new ≡ self.old }
        ensures block { IfOk result (λ block. block.items ≡ bytes.now) }
    {
        let Some(mut block) = self.spare.pop() else {
            return Vec::from_slice(*self.held.allocator(), bytes);
        };
        block.clear();
        block.extend_from_slice(bytes)?;
        Ok(block)
    }

    /// How many writes no read has begun.
    fn waiting(&self) -> u64
        ensures { result ≡ kept_waiting self.now }
    {
        let begun = usize::from(self.offset > 0);
        (self.held.len() - begun) as u64
    }

    /// Takes the first write out, and keeps its block. There are never more blocks than places for
    /// them. The places were made with the pipe, so this takes no memory.
    fn pass_first(&mut self)
        requires { 0 < length self.old.unread }
        ensures { self.new ≡ record self.old { unread = drop 1 self.old.unread; offset = 0 } }
    {
        let HeldWrite { writer: _, bytes } = self.held.pop_front().unwrap();
        self.offset = 0;
        if self.spare.len() < self.spare.capacity() {
            let _ = self.spare.push(bytes);
        }
    }
}

/// The first of these bytes, at most `most`.
fn front_of(bytes: &[u8], most: u64) -> &[u8]
    ensures { result.now ≡ take most bytes.now }
{
    if bytes.len() as u64 > most {
        return &bytes[..most as usize];
    }
    bytes
}

/// Appends the bytes to `room`. Where there are no bytes, it asks for no memory.
fn append(room: &mut Vec<u8>, bytes: &[u8]) -> Result<(), AllocError>
    ensures appended { OnOk result (room.new.items ≡ room.old.items ++ bytes.now) }
    ensures some { IsErr result → bytes.now ≢ [] }
{
    if bytes.is_empty() {
        return Ok(());
    }
    room.extend_from_slice(bytes)
}
