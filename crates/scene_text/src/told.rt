//! Answers as text, each on its own: an error is that there was no memory.
use crate::answer::{Answer, Shown, Visit};
use crate::words::{KINDS, word_of};
use sleep_wakeup::{ProcStatus, RendezStatus};
use std::io::{Result, Write};
use sync_base::{Fault, NoteSet};

/// From how many bytes on a run of one byte is shown as `N*x`.
const LONG: usize = 33;

// Adds bytes: `-` where there are none, and `N*x` for a long run of one.
fn tell_bytes(told: &mut Vec<u8>, bytes: &[u8]) -> Result<()> {
    match bytes {
        [] => told.write_all(b"-"),
        [first, ..] if bytes.len() >= LONG && bytes.iter().all(|byte| *byte == *first) => {
            write!(told, "{}*", bytes.len())?;
            told.write_all(&[*first])
        }
        _ => told.write_all(bytes),
    }
}

/// Adds an answer, with what its process has read and visited.
pub fn tell_answer(told: &mut Vec<u8>, answer: Answer, shown: Shown<'_>) -> Result<()> {
    let Shown { bytes, visits, .. } = shown;
    match answer {
        Answer::Nothing => Ok(()),
        Answer::Word(word) => write!(told, "{word}"),
        Answer::Number(word, number) => write!(told, "{word} {number}"),
        Answer::Bytes(word, count) => {
            write!(told, "{word} ")?;
            tell_bytes(told, &bytes[..count.min(bytes.len())])
        }
        Answer::Notes(word, notes) => {
            write!(told, "{word}")?;
            tell_notes(told, notes)
        }
        Answer::Fault(fault) => tell_fault(told, fault),
        Answer::FaultAfter(fault, count) => {
            tell_fault(told, fault)?;
            write!(told, " {count}")
        }
        Answer::Points => tell_points(told, "points", visits, false),
        Answer::Posted => tell_points(told, "posted", visits, true),
        Answer::Status(status) => tell_status(told, status),
        Answer::Level(status) => tell_level(told, status),
        Answer::Told(from, to) => told.write_all(shown.told.get(from..to).unwrap_or(&[])),
    }
}

// A fault by its text, with the notes of an interruption.
fn tell_fault(told: &mut Vec<u8>, fault: Fault) -> Result<()> {
    write!(told, "{fault}")?;
    match fault {
        Fault::Interrupted(notes) => tell_notes(told, notes),
        _ => Ok(()),
    }
}

// Kinds of notes with a comma between each two, or `-` for none.
fn tell_notes(told: &mut Vec<u8>, notes: NoteSet) -> Result<()> {
    if notes.is_empty() {
        return told.write_all(b" -");
    }
    let mut mark = " ";
    for note in KINDS {
        if notes.has(note) {
            write!(told, "{mark}{}", word_of(note))?;
            mark = ",";
        }
    }
    Ok(())
}

// Each point that was visited, or those at which the process stood posted; `-` if it did at none.
fn tell_points(told: &mut Vec<u8>, word: &str, visits: &[Visit], posted: bool) -> Result<()> {
    write!(told, "{word}")?;
    let mut found = !posted;
    for visit in visits.iter() {
        if visit.posted || !posted {
            found = true;
            write!(told, " {}", visit.point)?;
        }
    }
    if found { Ok(()) } else { told.write_all(b" -") }
}

// After ps(1): `Wakeme` is posted, and its Rendez stands after it; any other is `Ready`. Then its
// mark, and the notes that are pending.
fn tell_status(told: &mut Vec<u8>, status: ProcStatus) -> Result<()> {
    match status.posted {
        Some(rendez) => write!(told, "Wakeme {}", rendez.0)?,
        None => told.write_all(b"Ready")?,
    }
    if status.marked {
        told.write_all(b" marked")?;
    }
    tell_notes(told, status.notes)
}

// The level, and who is posted.
fn tell_level(told: &mut Vec<u8>, status: RendezStatus) -> Result<()> {
    write!(told, "level {}", status.level)?;
    match status.posted {
        Some(pid) => write!(told, " posted {}", pid.0),
        None => told.write_all(b" nobody"),
    }
}
