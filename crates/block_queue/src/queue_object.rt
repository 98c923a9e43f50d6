//! The queue for one thread: a sequential object, which a kernel lock can share among threads.
ghost use Rattle.std.specs.Prelude.{◌≡◌, ◌<◌, ◌≤◌, length, IfOk, IfErr};
ghost use Rattle.sync_base.specs.declared.limits.TheConstants.{LAST_WRITE, MAX_PIPE_LIMIT};
ghost use Rattle.block_queue.specs.QueueObject.{Contents, new_kept, put_reply, take_reply};
ghost use Rattle.block_queue.specs.QueueObject.{after_reply};
ghost use Rattle.block_queue.specs.declared.queue_object.QueueCall.TheVariants.{Put, Take};

use crate::stored_block::StoredBlock;
use kernel_lock::Object;
use std::alloc::Global;
use std::collections::VecDeque;
use std::marker::Model;
use sync_base::limits::LAST_WRITE;
use sync_base::{Fault, Piece};

/// A call on a queue.
#[derive(Drop)]
pub enum QueueCall {
    /// Puts the block of this writer after the others. A writer may have any number.
    Put(u64, Piece),
    /// Takes the next block out.
    Take,
    /// Hangs the queue up, for good.
    Hang,
}

/// The reply of a queue. A block that was not taken comes back.
#[derive(Drop)]
pub enum QueueReply {
    /// The put was accepted, with this number.
    Taken(u64),
    /// The queue has as many blocks as it has room for. The number is that of the last block taken
    /// out.
    Full(Piece, u64),
    /// The queue is hung up.
    Hungup(Piece),
    /// The last number was given.
    Worn(Piece),
    /// The next block, the number of its writer, and the number of the write.
    Block(Piece, u64, u64),
    /// The queue has no block. The number is that of the last block taken out.
    NotYet(u64),
    /// The queue has no block and is hung up, so no more will come.
    End,
    /// The queue is hung up.
    Hung,
}

/// A bounded queue of blocks with hangup. It is there for the specification: tests alone call it.
#[derive(Drop)]
pub struct QueueObject {
    limit: u64,
    /// The number of the last block that was taken out.
    taken_out: u64,
    waiting: VecDeque<StoredBlock>,
    hung: bool,
}

impl Model for QueueObject {
    ghost use Rattle.std.specs.Prelude.{◌+◌, ◌≤◌, length};
    ghost use Rattle.std.specs.VecDeque.{deque_capacity};
    ghost use Rattle.sync_base.specs.declared.limits.TheConstants.{LAST_WRITE};
    ghost use Rattle.block_queue.specs.QueueObject.{Contents};

    ghost Value = { Contents };

    ghost view = { λ queue. record {
      limit = queue.limit;
      taken_out = queue.taken_out;
      waiting = queue.waiting.items;
      hung = queue.hung;
    } };

    // No more blocks stand than the limit, and there is room for as many.
    ghost invariant = { λ queue. (length queue.waiting.items ≤ queue.limit)
        × (queue.limit ≤ deque_capacity queue.waiting)
        × (queue.taken_out + length queue.waiting.items ≤ LAST_WRITE) };
}

impl QueueObject {
    /// An empty queue that holds at most `limit` blocks, and whose first write has the number
    /// `first` + 1. It takes all its memory here.
    ///
    /// Memory: room for as many blocks was refused.
    pub fn new(alloc: Global, limit: u64, first: u64) -> Result<QueueObject, Fault>
        requires some { 0 < limit }
        requires limit { limit ≤ MAX_PIPE_LIMIT }
        requires first { first ≤ LAST_WRITE }
        ensures opening { IfOk result (λ queue. queue ≡ new_kept limit first) }
        ensures faults { IfErr result (λ fault. fault ≡ Fault.Memory) }
    {
        let waiting = VecDeque::with_capacity(alloc, limit as usize)?;
        Ok(QueueObject {
            limit,
            taken_out: first,
            waiting,
            hung: false,
        })
    }

    // Puts the block after the others, where it may.
    fn put(&mut self, writer: u64, block: Piece) -> QueueReply
        ensures reply { result ≡ put_reply self.old block }
        ensures after { self.new ≡ after_reply self.old (Put writer block) result }
    {
        let last = self.taken_out + self.waiting.len() as u64;
        if self.hung {
            return QueueReply::Hungup(block);
        }
        if last == LAST_WRITE {
            return QueueReply::Worn(block);
        }
        if self.waiting.len() as u64 == self.limit {
            return QueueReply::Full(block, self.taken_out);
        }
        self.waiting
            .push_back_reserved(StoredBlock { writer, block });
        QueueReply::Taken(last + 1)
    }

    // Takes the next block out, where there is one.
    fn take(&mut self) -> QueueReply
        ensures reply { result ≡ take_reply self.old self.old.waiting }
        ensures after { self.new ≡ after_reply self.old Take result }
    {
        match self.waiting.pop_front() {
            Some(StoredBlock { writer, block }) => {
                self.taken_out += 1;
                QueueReply::Block(block, writer, self.taken_out)
            }
            None => {
                if self.hung {
                    QueueReply::End
                } else {
                    QueueReply::NotYet(self.taken_out)
                }
            }
        }
    }
}

impl Object for QueueObject {
    ghost use Rattle.block_queue.specs.QueueObject.{Contents, queue_definition};

    type Call = QueueCall;

    type Reply = QueueReply;

    ghost State = { Contents };

    ghost definition = { queue_definition };

    /// The reader is seat 0, and writer w is seat w + 1, where there is such a number.
    fn caller(call: &QueueCall) -> Option<u64> {
        match call {
            QueueCall::Put(writer, _) => writer.checked_add(1),
            QueueCall::Take => Some(0),
            QueueCall::Hang => None,
        }
    }

    /// Answers the call with the first reply that may be given. It takes no memory.
    fn run(&mut self, call: QueueCall) -> QueueReply {
        match call {
            QueueCall::Put(writer, block) => self.put(writer, block),
            QueueCall::Take => self.take(),
            QueueCall::Hang => {
                self.hung = true;
                QueueReply::Hung
            }
        }
    }
}
