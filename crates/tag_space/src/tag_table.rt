//! The entries of a space's table in one piece of memory, with room on both sides, so that only the
//! shorter side moves where an entry is put in or taken out.
ghost use Rattle.std.specs.Prelude.{◌≤◌, ◌+◌, length};

use std::alloc::{AllocError, Global};
use sync_base::Tag;

/// Tags with members, in one piece.
#[derive(Debug, Drop)]
pub(crate) struct TagTable {
    slots: Vec<(Tag, u64)>,
    /// Where the first entry is.
    first: usize,
    count: usize,
    ghost within: { first + count ≤ length slots.items },
}

impl TagTable {
    ghost use Rattle.std.specs.Prelude.{◌≡◌, ◌≤◌, ◌<◌, ◌+◌, [], length, slice_index_or, IfOk};
    ghost use Rattle.std.specs.List.{insert, remove};
    ghost use Rattle.tag_space.specs.Table.{entries_of, room_of};

    /// No entries, with room for this many. It takes all its memory here.
    pub(crate) fn new(alloc: Global, room: usize) -> Result<TagTable, AllocError>
        ensures none { IfOk result (λ entries. entries_of entries ≡ []) }
        ensures room { IfOk result (λ entries. room ≤ room_of entries) }
    {
        Ok(TagTable {
            slots: vec![in alloc; (Tag(0), 0); room.saturating_mul(2)]?,
            first: room,
            count: 0,
        })
    }

    /// The entries, in their order.
    pub(crate) fn as_slice(&self) -> &[(Tag, u64)]
        ensures { result.now ≡ entries_of self.now }
    {
        &self.slots[self.first..self.first + self.count]
    }

    /// Puts the entry at this place. The entries on one side of it move by one place: on the
    /// shorter side, if there is room.
    pub(crate) fn insert(&mut self, at: usize, entry: (Tag, u64))
        requires at { at ≤ length (entries_of self.old) }
        requires room { length (entries_of self.old) < room_of self.old }
        ensures entries { entries_of self.new ≡ insert (entries_of self.old) at entry }
        ensures room { room_of self.new ≡ room_of self.old }
    {
        let has_room_after = self.first + self.count < self.slots.len();
        let is_in_front = at < self.count - at;
        if has_room_after && (!is_in_front || self.first == 0) {
            self.insert_upward(at, entry);
        } else {
            self.insert_downward(at, entry);
        }
    }

    // The entries after it move.
    fn insert_upward(&mut self, at: usize, entry: (Tag, u64))
        requires at { at ≤ self.old.count }
        requires room { self.old.first + self.old.count < length self.old.slots.items }
        ensures entries { entries_of self.new ≡ insert (entries_of self.old) at entry }
        ensures room { room_of self.new ≡ room_of self.old }
    {
        let place = self.first + at;
        self.slots
            .copy_within(place..self.first + self.count, place + 1);
        self.slots[place] = entry;
        self.count += 1;
    }

    // The entries before it move.
    fn insert_downward(&mut self, at: usize, entry: (Tag, u64))
        requires at { at ≤ self.old.count }
        requires room { 0 < self.old.first }
        ensures entries { entries_of self.new ≡ insert (entries_of self.old) at entry }
        ensures room { room_of self.new ≡ room_of self.old }
    {
        let first = self.first - 1;
        self.slots.copy_within(self.first..self.first + at, first);
        self.slots[first + at] = entry;
        self.first = first;
        self.count += 1;
    }

    /// Takes the entry at this place out. The entries on its shorter side move by one place.
    pub(crate) fn remove(&mut self, at: usize) -> (Tag, u64)
        requires { at < length (entries_of self.old) }
        ensures entry { result ≡ slice_index_or (entries_of self.old) at result }
        ensures entries { entries_of self.new ≡ remove (entries_of self.old) at }
        ensures room { room_of self.new ≡ room_of self.old }
    {
        let entry = self.as_slice()[at];
        if at < self.count - at {
            self.remove_upward(at);
        } else {
            self.remove_downward(at);
        }
        entry
    }

    // The entries before it move.
    fn remove_upward(&mut self, at: usize)
        requires { at < self.old.count }
        ensures entries { entries_of self.new ≡ remove (entries_of self.old) at }
        ensures room { room_of self.new ≡ room_of self.old }
    {
        let first = self.first + 1;
        self.slots.copy_within(self.first..self.first + at, first);
        self.first = first;
        self.count -= 1;
    }

    // The entries after it move.
    fn remove_downward(&mut self, at: usize)
        requires { at < self.old.count }
        ensures entries { entries_of self.new ≡ remove (entries_of self.old) at }
        ensures room { room_of self.new ≡ room_of self.old }
    {
        let place = self.first + at;
        self.slots
            .copy_within(place + 1..self.first + self.count, place);
        self.count -= 1;
    }
}
