//! Schedules: each line is an event of the sleep core, answered by its world.
ghost use Rattle.std.specs.Prelude.{◌≡◌, ◌∷◌, [], ◌++◌, List, ℕ, Some, IfOk, OnOk};
ghost use Rattle.sleep_core.specs.declared.event.Event.TheVariants.{Note};
ghost use Rattle.sleep_core.specs.State.{State};
ghost use Rattle.sleep_core.specs.Step.{answer_to, world_after};
ghost use Rattle.scripts.specs.EventText.{event_text};
ghost use Rattle.scripts.specs.declared.lines.TheConstants.{LINE_FEED};
ghost use Rattle.scripts.specs.GroupNote.{PostsEach, listed};
ghost use Rattle.scripts.specs.Lines.{NoLineAsks};
ghost use Rattle.scripts.specs.Schedule.{IsWorld, event_of, schedule_language};
ghost use Rattle.scripts.specs.Script.{AnswersFirst, IsShorter, following, growth};

use crate::event_line::{event_at, parse_size};
use crate::event_text::push_event_answer;
use crate::group_line::{GroupNote, group_at};
use crate::lines::next_number;
use crate::script::{Script, is_too_long};
use sleep_core::{Event, World};
use std::alloc::{AllocError, Global};
use sync_base::{NoteSet, Pid};

/// A schedule while it runs.
#[derive(Drop)]
pub struct Schedule {
    world: World,
}

impl Script for Schedule {
    ghost State = { State };

    ghost language = { schedule_language };

    ghost stands_for = { λ schedule state. schedule.world ≡ state };

    fn open(alloc: Global, line: &[u8]) -> Result<Option<Self>, AllocError> {
        let Some(size) = parse_size(line) else {
            return Ok(None);
        };
        let Ok(world) = World::new(alloc, size.procs, size.rendez) else {
            return Err(AllocError);
        };
        Ok(Some(Schedule { world }))
    }

    fn answer_first<'t>(
        &mut self,
        text: &'t [u8],
        output: &mut Vec<u8>,
    ) -> Result<Option<&'t [u8]>, AllocError> {
        let Some((event, rest)) = event_at(text) else {
            return answer_first_group(&mut self.world, text, output);
        };
        if is_too_long(text, rest) {
            return Ok(None);
        }
        answer_event(&mut self.world, event, output)?;
        Ok(Some(rest))
    }

    fn push_closing_line(&self, output: &mut Vec<u8>) -> Result<(), AllocError> {
        if self.world.is_lost() {
            output.extend_from_slice(b"lost yes\n")
        } else {
            output.extend_from_slice(b"lost no\n")
        }
    }
}

/// Does an event, and writes the answer. The step and its answer in words are one function here.
#[inline(never)]
fn answer_event(world: &mut World, event: Event, output: &mut Vec<u8>) -> Result<(), AllocError>
    ensures after { world.new ≡ world_after world.old event }
    ensures text { OnOk result (output.new.items
        ≡ output.old.items ++ event_text (answer_to world.old event) ++ LINE_FEED ∷ []) }
{
    push_event_answer(output, world.step(event))
}

/// The same for a text whose first line is no event: it may be a line `notepg`.
#[inline(always)]
fn answer_first_group<'t>(
    world: &mut World,
    text: &'t [u8],
    output: &mut Vec<u8>,
) -> Result<Option<&'t [u8]>, AllocError>
    requires { NoLineAsks event_of text.now }
    ensures answered { IfOk result (λ rest. AnswersFirst
        (following schedule_language world.old (IsWorld world.new))
        text.entry.now rest (growth output.old.items output.new.items)) }
    ensures shorter { IfOk result (λ rest. IsShorter rest text.entry.now) }
{
    let Some((group, after)) = group_at(text) else {
        return Ok(None);
    };
    if is_too_long(text, after) {
        return Ok(None);
    }
    post_each(world, group, output)?;
    Ok(Some(after))
}

/// Posts the notes to each process of a group in turn, and writes the answers.
#[inline(always)]
fn post_each(
    world: &mut World,
    group: GroupNote<'_>,
    output: &mut Vec<u8>,
) -> Result<(), AllocError>
    ensures { (pids : List ℕ) → listed group.entry.pids ≡ Some pids → OnOk result (PostsEach
        group.entry.notes pids world.old world.new (growth output.old.items output.new.items)) }
{
    let notes = group.notes;
    answer_note(world, Pid(group.pids.first), notes, output)?;
    let mut rest = group.pids.others;
    while let Some(text) = rest {
        let Some((pid, after)) = next_number(text) else {
            return Ok(());
        };
        answer_note(world, Pid(pid), notes, output)?;
        rest = after;
    }
    Ok(())
}

/// Posts notes to a process, and writes the answer. As a function of its own, so that the compiler
/// keeps here only what a note needs of the step and of its answer in words.
#[inline(never)]
fn answer_note(
    world: &mut World,
    pid: Pid,
    notes: NoteSet,
    output: &mut Vec<u8>,
) -> Result<(), AllocError>
    ensures after { world.new ≡ world_after world.old (Note pid notes) }
    ensures text { OnOk result (output.new.items
        ≡ output.old.items ++ event_text (answer_to world.old (Note pid notes)) ++ LINE_FEED ∷ []) }
{
    push_event_answer(output, world.step(Event::Note { pid, notes }))
}
