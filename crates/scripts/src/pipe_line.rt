//! The lines of a pipe script.
ghost use Rattle.std.specs.Option.{option_map};
ghost use Rattle.std.specs.Prelude.{◌≡◌, ◌∷◌, ◌++◌, ℕ, List, None, Some, IfOk, MatchOption};
ghost use Rattle.scripts.specs.Lines.{words_of, words_of_rest, LineAsks, NoLineAsks};
ghost use Rattle.scripts.specs.PipeScript.{bytes_of, opened_of, mode_of, op_of, read_of, write_of};
ghost use Rattle.scripts.specs.PipeLine.{opened_by, asked_by, op_word, op_end};

use crate::digits::decode;
use crate::lines::{
    LINE_FEED, SPACE, after_word, bounded_number, next_line, next_word, number_before,
};
use crate::script::MAX_LINE;
use std::alloc::AllocError;
use sync_base::Mode;
use sync_base::limits::{MAX_PIPE_LIMIT, MAX_WRITERS};

/// What a line asks for.
#[derive(Drop)]
pub enum PipeOp<'a> {
    /// A writer offers bytes.
    Write { writer: u64, bytes: &'a [u8] },
    /// At most this many bytes are to be read.
    Read { most: u64 },
    /// The direction is hung up.
    Hangup,
}

/// The pipe that the first line asks for.
#[derive(Clone, Copy)]
pub struct Opening {
    pub mode: Mode,
    pub limit: u64,
}

/// The pipe that a line `limit N` or `limit N stream` asks for.
pub fn opening_at(line: &[u8]) -> Option<Opening>
    ensures { option_map opened_by result ≡ opened_of (words_of line.now) }
{
    let (verb, rest) = next_word(line);
    if verb != b"limit".as_slice() {
        return None;
    }
    let (limit, rest) = next_word(rest?);
    let mode = mode_of_rest(rest)?;
    let limit = bounded_number(limit, 1, MAX_PIPE_LIMIT)?;
    Some(Opening { mode, limit })
}

/// The mode that the text after the limit asks for.
fn mode_of_rest(rest: Option<&[u8]>) -> Option<Mode>
    ensures { result ≡ mode_of (words_of_rest rest.entry) }
{
    let Some(rest) = rest else {
        return Some(Mode::Message);
    };
    let (word, others) = next_word(rest);
    if others.is_some() {
        return None;
    }
    if word != b"stream".as_slice() {
        return None;
    }
    Some(Mode::Stream)
}

/// What the first line of a text asks for, and what follows that line, in one pass; nothing where
/// the text has no whole line, or that line is not in the grammar. A line that is too long may be
/// answered either way. Bytes are put into this room.
pub fn op_at<'a, 't>(
    text: &'t [u8],
    room: &'a mut Vec<u8>,
) -> Result<Option<(PipeOp<'a>, &'t [u8])>, AllocError>
    ensures { IfOk result (λ found. MatchOption found (NoLineAsks op_of text.now)
        (λ f. LineAsks op_of text.now (asked_by f.0) f.1.now)) }
{
    let Some((verb, rest)) = verb_at(text) else {
        return Ok(None);
    };
    match verb {
        OpVerb::Write => write_at(rest, room),
        OpVerb::Read => Ok(read_at(rest)),
        OpVerb::Hangup => Ok(Some((PipeOp::Hangup, rest))),
    }
}

/// The first word of an operation.
#[derive(Clone, Copy)]
pub enum OpVerb {
    Write,
    Read,
    Hangup,
}

/// The verb that a text begins with, and what follows the byte after it.
#[inline(always)]
fn verb_at(text: &[u8]) -> Option<(OpVerb, &[u8])>
    ensures { MatchOption result
        ((verb : OpVerb) (rest : List ℕ) → text.now ≡ op_word verb ++ op_end verb ∷ rest → ⊥)
        (λ found. text.now ≡ op_word found.0 ++ op_end found.0 ∷ found.1.now) }
{
    if let Some(rest) = after_word(b"read ", text) {
        return Some((OpVerb::Read, rest));
    }
    if let Some(rest) = after_word(b"write ", text) {
        return Some((OpVerb::Write, rest));
    }
    if let Some(rest) = after_word(b"hangup\n", text) {
        return Some((OpVerb::Hangup, rest));
    }
    None
}

/// A read with the words that follow its verb, and what follows the line.
#[inline(always)]
fn read_at<'a, 't>(text: &'t [u8]) -> Option<(PipeOp<'a>, &'t [u8])>
    ensures { MatchOption result (NoLineAsks read_of text.now)
        (λ f. LineAsks read_of text.now (asked_by f.0) f.1.now) }
{
    let (most, rest) = number_before(LINE_FEED, text)?;
    Some((PipeOp::Read { most }, rest))
}

/// A write with the words that follow its verb, and what follows the line. Only the line feed is
/// looked for before the digits are decoded: a space is no digit.
fn write_at<'a, 't>(
    text: &'t [u8],
    room: &'a mut Vec<u8>,
) -> Result<Option<(PipeOp<'a>, &'t [u8])>, AllocError>
    ensures { IfOk result (λ found. MatchOption found (NoLineAsks write_of text.now)
        (λ f. LineAsks write_of text.now (asked_by f.0) f.1.now)) }
{
    let Some((writer, rest)) = number_before(SPACE, text) else {
        return Ok(None);
    };
    if writer >= MAX_WRITERS {
        return Ok(None);
    }
    if let Some(rest) = after_word(b"-\n", rest) {
        let bytes = &room[..0];
        return Ok(Some((PipeOp::Write { writer, bytes }, rest)));
    }
    let Some((word, rest)) = next_line(rest) else {
        return Ok(None);
    };
    if word.len() > MAX_LINE {
        return Ok(None);
    }
    let Some(bytes) = bytes_at(word, room)? else {
        return Ok(None);
    };
    Ok(Some((PipeOp::Write { writer, bytes }, rest)))
}

/// The bytes of a word in hexadecimal, put into this room, which grows where it has to; nothing
/// where the word is not hexadecimal.
fn bytes_at<'a>(word: &[u8], room: &'a mut Vec<u8>) -> Result<Option<&'a [u8]>, AllocError>
    ensures { IfOk result (λ bytes. MatchOption bytes (bytes_of word.now ≡ None)
        (λ b. bytes_of word.now ≡ Some b.now)) }
{
    if word == b"-".as_slice() {
        return Ok(Some(room.slice_mut(..0)));
    }
    if word.is_empty() || word.len() % 2 != 0 {
        return Ok(None);
    }
    let count = word.len() / 2;
    if count > room.len() {
        room.resize(count, 0)?;
    }
    let room = room.slice_mut(..count);
    if !decode(word, room) {
        return Ok(None);
    }
    Ok(Some(room))
}
