//! Scripts of any language: their lines are answered in order, up to the first that is not in the
//! grammar.
ghost use Rattle.std.specs.Prelude.{◌≡◌, true, false, Some, None, ◌≤◌, ◌+◌, ◌-◌, ◌||◌, ◌++◌};
ghost use Rattle.std.specs.Prelude.{ℕ, List, length};
ghost use Rattle.std.specs.Prelude.{nat_lt, IfOk, IfErr, OnOk};
ghost use Rattle.scripts.specs.Lines.{lines_of, cut_line_of};
ghost use Rattle.scripts.specs.Device.{Tells, IsOutside};
ghost use Rattle.scripts.specs.Script.{Language, Opens, AnswersFirst};
ghost use Rattle.scripts.specs.Script.{IsShorter, following, growth, lines_told};
ghost use Rattle.scripts.specs.Script.{stage, told_from};

use crate::device::write_whole;
use crate::lines::next_line;
use std::alloc::{AllocError, Global};
use std::io::Write;
use sync_base::Fault;

/// The most bytes of a line, its line feed not counted.
pub const MAX_LINE: usize = 200_000;

/// The most bytes of a script, line feeds counted.
pub const MAX_SCRIPT: usize = 16_777_216;

/// A script while it runs. Its language says what each line does to a state.
pub trait Script: Drop + Sized {
    /// The state of the language, from line to line.
    ghost State: { Type 0 };

    /// The language of these scripts.
    ghost language: { Language State };

    /// Whether the script has come to this state.
    ghost stands_for: { Self → State → Type 0 };

    /// The script that the first line opens, or nothing where that line is not in the grammar.
    fn open(alloc: Global, line: &[u8]) -> Result<Option<Self>, AllocError>
        ensures { IfOk result (Opens stands_for (language.opened_by line.now)) };

    /// Answers the first line of a text, and returns what follows that line; nothing where there is
    /// no whole line, or it is not in the grammar or too long.
    fn answer_first<'t>(
        &mut self,
        text: &'t [u8],
        output: &mut Vec<u8>,
    ) -> Result<Option<&'t [u8]>, AllocError>
        ensures answered { (s : State) → stands_for self.old s → IfOk result (λ rest.
            AnswersFirst (following language s (stands_for self.new)) text.now rest
            (growth output.old.items output.new.items)) }
        ensures shorter { IfOk result (λ rest. IsShorter rest text.now) };

    /// Writes the closing line, which comes after the answer to the last line.
    fn push_closing_line(&self, output: &mut Vec<u8>) -> Result<(), AllocError>
        ensures { (s : State) → stands_for self.now s →
            OnOk result (output.new.items ≡ output.old.items ++ language.closing_line s) };
}

/// How many bytes of answers are held back before they are written. So few bytes stay in the cache,
/// and their memory is taken once.
const PIECE: usize = 65_536;

/// Room for a piece and the longest answer after it, which gives 65,536 bytes in digits. A read of
/// a stream and the answers to a long line `notepg` may take more, and then the room grows.
const ROOM: usize = PIECE + 131_077;

/// Writes what the lines of a text say, and returns the number of the line at fault. Where the
/// script is too long, the text is its prefix.
pub fn tell<S: Script, W: Write>(
    alloc: Global,
    text: &[u8],
    is_too_long: bool,
    writer: &mut W,
) -> Result<Option<u64>, Fault>
    requires { length text.now ≤ MAX_SCRIPT }
    ensures told { Tells (lines_told S.language
        (is_too_long || nat_lt 0 (length (cut_line_of text.now))) (lines_of text.now))
        (W.contents writer.old) (W.contents writer.new) result }
    ensures outside { IfErr result IsOutside }
{
    let Some((first, rest)) = next_line(text) else {
        return Ok(Some(1));
    };
    if first.len() > MAX_LINE {
        return Ok(Some(1));
    }
    let Some(script) = S::open(alloc, first)? else {
        return Ok(Some(1));
    };
    answer_lines(alloc, script, rest, is_too_long, writer)
}

/// Answers the lines after the first, writes the answers piece by piece, and returns the number of
/// the line at fault. As a function of its own the loop has the registers to itself.
#[inline(never)]
fn answer_lines<S: Script, W: Write>(
    alloc: Global,
    mut script: S,
    lines: &[u8],
    is_too_long: bool,
    writer: &mut W,
) -> Result<Option<u64>, Fault>
    requires { length lines.now ≤ MAX_SCRIPT }
    ensures told { (s : S.State) → S.stands_for script s → Tells (told_from S.language
        (is_too_long || nat_lt 0 (length (cut_line_of lines.now))) (stage s 2) (lines_of lines.now))
        (W.contents writer.old) (W.contents writer.new) result }
    ensures outside { IfErr result IsOutside }
{
    let mut held = Vec::with_capacity(alloc, ROOM)?;
    let mut rest = lines;
    let mut number = 2u64;
    while let Some(after) = script.answer_first(rest, &mut held)? {
        number += 1;
        rest = after;
        if held.len() >= PIECE {
            write_whole(writer, &held)?;
            held.clear();
        }
    }
    let faulty_line = end(&script, is_too_long, rest, number, &mut held)?;
    write_whole(writer, &held)?;
    Ok(faulty_line)
}

/// Ends a script after the last line that could be answered: the next one is at fault where bytes
/// are left or the script is too long, and otherwise the closing line is written.
fn end<S: Script>(
    script: &S,
    is_too_long: bool,
    rest: &[u8],
    number: u64,
    output: &mut Vec<u8>,
) -> Result<Option<u64>, AllocError>
    ensures fault { (is_too_long || nat_lt 0 (length rest.now)) ≡ true → IfOk result (λ fault.
        (fault ≡ Some number) × (output.new.items ≡ output.old.items)) }
    ensures closing_line { (is_too_long || nat_lt 0 (length rest.now)) ≡ false
        → (s : S.State) → S.stands_for script.now s → IfOk result (λ fault. (fault ≡ None)
        × (output.new.items ≡ output.old.items ++ S.language.closing_line s)) }
{
    if is_too_long || !rest.is_empty() {
        return Ok(Some(number));
    }
    script.push_closing_line(output)?;
    Ok(None)
}

/// Whether the line before this rest of a text is too long.
#[inline(always)]
pub fn is_too_long(text: &[u8], rest: &[u8]) -> bool
    requires { length rest.now ≤ length text.now }
    ensures { result ≡ nat_lt (MAX_LINE + 1) (length text.now - length rest.now) }
{
    text.len() - rest.len() > MAX_LINE + 1
}
