//! The answers of a pipe script in words, each with its line feed.
ghost use Rattle.std.specs.Prelude.{◌≡◌, ◌∷◌, [], ◌++◌, OnOk};
ghost use Rattle.scripts.specs.AnswerText.{write_text, read_text, hex_text};
ghost use Rattle.sync_base.specs.PlainPipe.{lent_answer};
ghost use Rattle.scripts.specs.declared.lines.TheConstants.{LINE_FEED};

use crate::lines::LINE_FEED;
use std::alloc::AllocError;
use sync_base::{PeekAnswer, WriteAnswer};

/// The answer to a write.
pub fn push_write_answer(output: &mut Vec<u8>, answer: WriteAnswer) -> Result<(), AllocError>
    ensures { OnOk result (output.new.items
        ≡ output.old.items ++ write_text answer ++ LINE_FEED ∷ []) }
{
    match answer {
        WriteAnswer::Taken => output.extend_from_slice(b"taken\n"),
        WriteAnswer::Full => output.extend_from_slice(b"full\n"),
        WriteAnswer::Hungup => output.extend_from_slice(b"hungup\n"),
    }
}

/// The answer to a read.
pub fn push_read_answer(output: &mut Vec<u8>, answer: PeekAnswer<'_>) -> Result<(), AllocError>
    ensures { OnOk result (output.new.items
        ≡ output.old.items ++ read_text (lent_answer answer.entry) ++ LINE_FEED ∷ []) }
{
    match answer {
        PeekAnswer::Got(piece) => {
            output.extend_from_slice(b"got ")?;
            push_hex(output, piece)?;
            output.push(LINE_FEED)?;
            Ok(())
        }
        PeekAnswer::Empty => output.extend_from_slice(b"empty\n"),
        PeekAnswer::End => output.extend_from_slice(b"end\n"),
    }
}

/// Bytes as hexadecimal digits, and no bytes as a dash.
fn push_hex(output: &mut Vec<u8>, bytes: &[u8]) -> Result<(), AllocError>
    ensures { OnOk result (output.new.items ≡ output.old.items ++ hex_text bytes.now) }
{
    if bytes.is_empty() {
        return output.extend_from_slice(b"-");
    }
    let start = output.len();
    // The digits are written where they stay. The room is as long as they are.
    output.reserve(2 * bytes.len())?;
    output.resize(start + 2 * bytes.len(), 0)?;
    match hex::encode_to_slice(bytes, output.slice_mut(start..)) {
        Ok(()) => Ok(()),
        Err(_) => unreachable!(),
    }
}
