//! What holds of every sequential queue, and of every ring. A law is a function that does nothing:
//! its contract is the law.
ghost use Rattle.block_queue.specs.Laws.{EachCallIsRight, ObjectsAreQueues};
ghost use Rattle.block_queue.specs.Moments.{RingsAreLinearizable};

/// Each call on a sequential queue gets the first answer that a direction of a pipe may give, by
/// whole blocks, and leaves what that answer leaves. So each of its histories is a legal history of
/// a queue, as the ring's histories are.
pub fn objects_are_queues()
    ensures calls { EachCallIsRight }
    ensures histories { ObjectsAreQueues }
{}

/// *The ring is linearizable as a queue whose put is two entries*: its write is taken, and later it
/// stands (Herlihy and Wing, "Linearizability: a correctness condition for concurrent objects",
/// 1990; time is the order of the table's steps). At each moment there is one legal history, which
/// has each entry of each seat once, in the seat's order. An entry comes in it after all that any
/// seat had seen when its call began, so after all that calls made which had returned then. As a
/// queue whose put is one entry it is not linearizable: a put that has returned may lie behind one
/// that has not, and a take then answers `NotYet`.
pub fn calls_stand_in_the_order_of_time()
    ensures linearizable { RingsAreLinearizable }
{}
