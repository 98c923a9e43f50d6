//! The line `notepg PIDS KINDS` of a schedule, which posts notes to a group of processes.
ghost use Rattle.std.specs.Prelude.{◌≡◌, ◌∷◌, ◌++◌, ℕ, List, codes, Some, None, MatchOption};
ghost use Rattle.std.specs.Option.{is_some};
ghost use Rattle.scripts.specs.declared.lines.TheConstants.{SPACE};
ghost use Rattle.scripts.specs.Lines.{is_comma, parts_of_rest, NoLineAsks};
ghost use Rattle.scripts.specs.GroupNote.{AskPids, BeginsWithGroup};
ghost use Rattle.scripts.specs.Schedule.{group_of, pids_of, rising_after};

use crate::event_line::parse_kinds;
use crate::lines::{after_word, next_line, next_number, next_word};
use sync_base::NoteSet;

/// Processes that rise: the first, and the others as they are written.
#[derive(Clone, Copy)]
pub struct PidList<'t> {
    pub first: u64,
    pub others: Option<&'t [u8]>,
}

/// Notes to the processes of a list.
#[derive(Clone, Copy)]
pub struct GroupNote<'t> {
    pub pids: PidList<'t>,
    pub notes: NoteSet,
}

/// The notes that the first line of a text asks for, and what follows that line; nothing where the
/// text has no whole line, or that line is no line `notepg`. A line that is too long may be
/// answered either way.
#[inline(always)]
pub fn group_at(text: &[u8]) -> Option<(GroupNote<'_>, &[u8])>
    ensures { MatchOption result (NoLineAsks group_of text.now)
        (λ found. BeginsWithGroup text.now found.0 found.1.now) }
{
    let (line, rest) = next_line(after_word(b"notepg ", text)?)?;
    let (pids, kinds) = next_word(line);
    let notes = parse_kinds(kinds?)?;
    let pids = parse_pids(pids)?;
    Some((GroupNote { pids, notes }, rest))
}

/// Processes that rise strictly, with a comma between each two.
fn parse_pids(word: &[u8]) -> Option<PidList<'_>>
    ensures { MatchOption result (pids_of word.now ≡ None) (λ pids. AskPids word.now pids) }
{
    let (first, others) = next_number(word)?;
    if !rise(first, others) {
        return None;
    }
    Some(PidList { first, others })
}

/// Whether the processes that are written after this one rise from it.
fn rise(first: u64, others: Option<&[u8]>) -> bool
    ensures { result ≡ is_some (rising_after (Some first) (parts_of_rest is_comma others.entry)) }
{
    let mut before = first;
    let mut rest = others;
    while let Some(text) = rest {
        let Some((pid, after)) = next_number(text) else {
            return false;
        };
        if pid <= before {
            return false;
        }
        before = pid;
        rest = after;
    }
    true
}
