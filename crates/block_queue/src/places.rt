//! Where the ring keeps each thing. The first word is the tail, and has its line to itself: all
//! writers use it, and the reader uses the others. After that line come two words for each place,
//! of which the first is its sequence word, so that a line has four places: with eight, writers and
//! the reader took it from each other. Each place has a slot. The writes are counted from 0, and
//! write c is kept in place c mod limit.
ghost use Rattle.std.specs.Prelude.{◌≡◌, ◌<◌, ◌^◌};
ghost use Rattle.block_queue.specs.Places.{
  sequence_of,
  free_word,
  stored_word,
  place_of,
  ring_words,
};

use sync_base::line::LINE;

/// The word that counts the writes that were accepted.
pub const TAIL: usize = 0;

/// The bit of the tail that says that the queue is hung up.
pub const MARK: u64 = 9_223_372_036_854_775_808;

/// The place of a write.
pub(crate) fn place(limit: u64, count: u64) -> usize
    requires { 0 < limit }
    ensures result { result ≡ place_of limit count }
    ensures within { result < limit }
{
    (count % limit) as usize
}

/// The word of a place.
pub(crate) fn sequence(place: usize) -> usize
    requires { sequence_of place < 18446744073709551616 }
    ensures { result ≡ sequence_of place }
{
    LINE as usize + 2 * place
}

/// How many words a ring of `limit` places has.
pub(crate) fn ring_words(limit: u64) -> usize
    requires { ring_words limit < 18446744073709551616 }
    ensures { result ≡ ring_words limit }
{
    (LINE + 2 * limit) as usize
}

/// The word of a write's place before the write is put there.
pub(crate) fn free(limit: u64, count: u64) -> u64
    requires limit { 0 < limit }
    requires small { count < 2 ^ 62 }
    ensures { result ≡ free_word limit count }
{
    2 * (count / limit)
}

/// The word of a write's place while the write stands there.
pub(crate) fn stored(limit: u64, count: u64) -> u64
    requires limit { 0 < limit }
    requires small { count < 2 ^ 62 }
    ensures { result ≡ stored_word limit count }
{
    2 * (count / limit) + 1
}
