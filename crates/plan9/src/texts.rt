//! Notes, and faults with their notes, in words.
use std::fmt::{self, Display, Formatter, Write};
use sync_base::{Fault, Note, NoteSet};

/// Notes in words: the text of each note, as notify(2) shows it, with commas between.
#[derive(Clone, Copy)]
pub struct NoteTexts(pub NoteSet);

/// A fault in words: its own text, and for `Interrupted` then the notes that ended the wait.
#[derive(Clone, Copy)]
pub struct FaultText(pub Fault);

/// Each kind of note, in the order in which they are printed.
const KINDS: [Note; 5] = [
    Note::Interrupt,
    Note::Hangup,
    Note::Alarm,
    Note::ClosedPipe,
    Note::Expired,
];

impl Display for NoteTexts {
    /// No notes are no text. Takes no memory of its own and doesn't wait.
    fn fmt<W: Write>(&self, f: &mut Formatter<W>) -> fmt::Result {
        let mut comma = "";
        for note in KINDS {
            if self.0.has(note) {
                f.write_str(comma)?;
                f.write_str(note.text())?;
                comma = ", ";
            }
        }
        Ok(())
    }
}

impl Display for FaultText {
    /// Takes no memory of its own and doesn't wait.
    fn fmt<W: Write>(&self, f: &mut Formatter<W>) -> fmt::Result {
        match self.0 {
            Fault::Interrupted(notes) => write!(f, "interrupted: {}", NoteTexts(notes)),
            fault => write!(f, "{fault}"),
        }
    }
}
