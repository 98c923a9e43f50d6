//! What a word stands for.
use std::str::SplitWhitespace;
use sync_base::{Flags, Note, NoteSet};

/// The words of a line that are still to be read.
pub type Words<'t> = SplitWhitespace<'t>;

/// A number has one spelling, without a sign and with no zero in front.
pub fn number_of(word: &str) -> Option<u64> {
    if word.starts_with('+') || (word.len() > 1 && word.starts_with('0')) {
        return None;
    }
    word.parse::<u64>().ok()
}

/// The next number.
pub fn number(words: &mut Words<'_>) -> Option<u64> {
    number_of(words.next()?)
}

/// The next number, of 32 bits.
pub fn count(words: &mut Words<'_>) -> Option<u32> {
    u32::try_from(number(words)?).ok()
}

/// The number of an object, which is counted from 1.
pub fn object_of(word: &str) -> Option<u64> {
    match number_of(word) {
        Some(0) => None,
        number => number,
    }
}

/// The number of the next object, which may be left out.
pub fn object(words: &mut Words<'_>) -> Option<u64> {
    match words.next() {
        Some(word) => object_of(word),
        None => Some(1),
    }
}

/// The most bytes that `N*x` stands for, and the most that a read has room for.
const MOST_BYTES: u64 = 268_435_456;

/// The next number of bytes, if they are not too many.
pub fn room(words: &mut Words<'_>) -> Option<u64> {
    match number(words) {
        Some(count) if count <= MOST_BYTES => Some(count),
        _ => None,
    }
}

/// So many of one byte.
#[derive(Clone, Copy)]
struct Run {
    count: u64,
    byte: u8,
}

// What a word such as `65536*x` stands for. Any other word has its own bytes.
fn run_of(word: &str) -> Option<Run> {
    let (count, text) = word.split_once('*')?;
    match text.as_bytes() {
        [byte] => Some(Run {
            count: number_of(count)?,
            byte: *byte,
        }),
        _ => None,
    }
}

/// The next word for bytes, which `&` is not, if they are not too many.
pub fn bytes<'t>(words: &mut Words<'t>) -> Option<&'t str> {
    let word = words.next()?;
    match run_of(word) {
        Some(run) if run.count > MOST_BYTES => None,
        _ if word == "&" => None,
        _ => Some(word),
    }
}

/// Makes the bytes those of a word: so many of one byte as `65536*x`, none as `-`, and else its
/// own. Whether there was memory.
pub fn fill(bytes: &mut Vec<u8>, word: &str) -> bool {
    bytes.clear();
    if word == "-" {
        return true;
    }
    match run_of(word) {
        Some(Run { count, byte }) => bytes.resize(count as usize, byte).is_ok(),
        None => bytes.extend_from_slice(word.as_bytes()).is_ok(),
    }
}

/// Each kind of note, in the order in which they are told.
pub const KINDS: [Note; 5] = [
    Note::Interrupt,
    Note::Hangup,
    Note::Alarm,
    Note::ClosedPipe,
    Note::Expired,
];

/// The word for a kind of note.
pub fn word_of(note: Note) -> &'static str {
    match note {
        Note::ClosedPipe => "closed",
        _ => note.text(),
    }
}

// The kind of note that a word names.
fn kind_of(word: &str) -> Option<Note> {
    for note in KINDS {
        if word_of(note) == word {
            return Some(note);
        }
    }
    None
}

/// The next kinds of notes, with a comma between each two, or `-` for none.
pub fn kinds(words: &mut Words<'_>) -> Option<NoteSet> {
    let word = words.next()?;
    let mut notes = NoteSet::empty();
    if word == "-" {
        return Some(notes);
    }
    for kind in word.split(',') {
        notes = notes.join(NoteSet::of(kind_of(kind)?));
    }
    Some(notes)
}

// The flag that a word names.
fn flag_of(word: &str) -> Option<Flags> {
    match word {
        "proc" => Some(Flags::RFPROC),
        "rend" => Some(Flags::RFREND),
        "noteg" => Some(Flags::RFNOTEG),
        _ => None,
    }
}

/// The next flags of rfork, with a comma between each two, `-` for none, or their bits as a number.
pub fn flags(words: &mut Words<'_>) -> Option<Flags> {
    let word = words.next()?;
    if let Some(bits) = number_of(word) {
        return Some(Flags::from_bits(u32::try_from(bits).ok()?));
    }
    let mut flags = Flags::NONE;
    if word == "-" {
        return Some(flags);
    }
    for flag in word.split(',') {
        flags = flags.join(flag_of(flag)?);
    }
    Some(flags)
}
