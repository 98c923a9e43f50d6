//! The program on its words: which texts it plays, and the status that says how that went.
use crate::play::play_text;
use crate::scene::Host;
use scene_text::page::Page;
use scene_text::words::number_of;
use std::fs::Files;
use std::io::{ErrorKind, Read, Write};
use std::{fs, io};

/// The status of a run in which each answer agrees.
pub const GOOD: u8 = 0;

/// The status of a run in which an answer differs, or that ended in a fault.
pub const FAULT: u8 = 1;

/// The status of a command line that was refused.
pub const REFUSED: u8 = 2;

/// Says why, and gives the status. A failed write changes nothing.
pub fn say(err: &mut impl Write, text: &str, status: u8) -> u8 {
    let _ = err.write_all(text.as_bytes());
    status
}

/// The form of the command line.
pub const USAGE: &str = "usage: p9lab [--turns N] [FILE ..]\n";

/// For how many turns anything is awaited where the words don't say.
const TURNS: u64 = 1_000_000;

/// How long anything is awaited, and which word is the first that names a file.
#[derive(Clone, Copy)]
struct Options {
    turns: u64,
    from: usize,
}

// Only the first word after the name may be an option.
fn options_of(words: &[String]) -> Option<Options> {
    let (turns, from) = match words {
        [_, option, number, ..] if option.as_str() == "--turns" => (number_of(number.as_str())?, 3),
        _ => (TURNS, 1),
    };
    if words.iter().skip(from).any(|word| word.starts_with('-')) {
        return None;
    }
    Some(Options { turns, from })
}

/// The whole program on its words, its own name first.
pub fn run_words(
    rt: &(impl Host + Files + AllocGlobal),
    words: &[String],
    input: &mut impl Read,
    out: &mut impl Write,
    err: &mut impl Write,
) -> u8 {
    let Some(Options { turns, from }) = options_of(words) else {
        return say(err, USAGE, REFUSED);
    };
    let mut page = Page::new(rt.alloc());
    if words.len() <= from {
        let text = io::read_to_string(rt.alloc(), input);
        play_read(rt, turns, "standard input", text, &mut page, out, err);
    }
    for name in words.iter().skip(from) {
        let text = fs::read_to_string(rt, name.as_str());
        play_read(rt, turns, name.as_str(), text, &mut page, out, err);
    }
    let _ = page.report_all(err);
    if page.is_good() { GOOD } else { FAULT }
}

// Plays a text that was read, and says where it differs.
fn play_read(
    rt: &(impl Host + AllocGlobal),
    turns: u64,
    name: &str,
    text: io::Result<String>,
    page: &mut Page,
    out: &mut impl Write,
    err: &mut impl Write,
) {
    match text {
        Ok(text) => play_text(rt, rt.alloc(), turns, text.as_str(), page, out),
        Err(error) if error.kind() == ErrorKind::OutOfMemory => page.lack(),
        Err(error) => page.miss(why_unread(error.kind())),
    }
    let _ = page.report(name, err);
}

// Why a text can't be read, in words.
fn why_unread(kind: ErrorKind) -> &'static str {
    match kind {
        ErrorKind::NotFound => "there is no such file",
        ErrorKind::PermissionDenied => "no permission",
        ErrorKind::IsADirectory => "it is a folder",
        ErrorKind::InvalidData => "it has a byte that is no UTF-8",
        _ => "a device fault",
    }
}
