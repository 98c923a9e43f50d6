//! The flags of a process as one word, and back: the one file that knows the bits. The reader
//! comes from `lib`.
ghost use Rattle.std.specs.Prelude.{◌≡◌, Bool, List, ◌∷◌, if◌then◌else◌};
ghost use Rattle.sleep_core.specs.declared.phase.ProcFlags.{ProcFlags};
ghost use Rattle.sync_base.specs.NoteSet.{joined, only};
ghost use Rattle.rendez_words.specs.FlagsWord.{flags_word, number_of_bits};

use sleep_core::ProcFlags;
use sync_base::{Note, NoteSet};

/// The word of these flags: the lowest bit is the mark, and above it is a bit for each kind of
/// note.
pub(crate) fn word_from(flags: ProcFlags) -> u64
    ensures { result ≡ flags_word flags }
{
    let ProcFlags { wake, notes } = flags;
    let mut word = notes.has(Note::Expired) as u64;
    word = word * 2 + notes.has(Note::ClosedPipe) as u64;
    word = word * 2 + notes.has(Note::Alarm) as u64;
    word = word * 2 + notes.has(Note::Hangup) as u64;
    word = word * 2 + notes.has(Note::Interrupt) as u64;
    word * 2 + wake as u64
}

/// The flags of this word.
pub(crate) fn flags_in(word: u64) -> ProcFlags
    ensures { (flags : ProcFlags) → word ≡ flags_word flags → result ≡ flags }
{
    let mut bits = word;
    let wake = lowest_bit(&mut bits);
    let interrupt = lowest_bit(&mut bits);
    let hangup = lowest_bit(&mut bits);
    let alarm = lowest_bit(&mut bits);
    let closed_pipe = lowest_bit(&mut bits);
    let expired = lowest_bit(&mut bits);
    let notes = joined_if(NoteSet::empty(), Note::Interrupt, interrupt);
    let notes = joined_if(notes, Note::Hangup, hangup);
    let notes = joined_if(notes, Note::Alarm, alarm);
    let notes = joined_if(notes, Note::ClosedPipe, closed_pipe);
    let notes = joined_if(notes, Note::Expired, expired);
    ProcFlags { wake, notes }
}

// Takes the lowest bit away, and says whether it was set.
fn lowest_bit(bits: &mut u64) -> bool
    ensures bit { (bit : Bool) → (rest : List Bool)
        → bits.old ≡ number_of_bits (bit ∷ rest) → result ≡ bit }
    ensures rest { (bit : Bool) → (rest : List Bool)
        → bits.old ≡ number_of_bits (bit ∷ rest) → bits.new ≡ number_of_bits rest }
{
    let is_set = *bits % 2 == 1;
    *bits /= 2;
    is_set
}

// The notes, and this one too where its bit is set.
fn joined_if(notes: NoteSet, note: Note, is_set: bool) -> NoteSet
    ensures { result ≡ (if is_set then joined notes (only note) else notes) }
{
    if is_set {
        notes.join(NoteSet::of(note))
    } else {
        notes
    }
}
