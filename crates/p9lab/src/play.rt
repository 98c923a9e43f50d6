//! A text of scenes, played line by line. An empty line stands between two scenes.
ghost use Rattle.std.specs.Prelude.{IfOk, IfSome};
ghost use Rattle.sleep_wakeup.specs.Starts.{IsStartOf};

use crate::kept::{leave, play};
use crate::scene::{Host, Scene, begin, open, set, shown_of};
use plan9::{Fault, Kernel, OpenedKernel, Plan};
use scene_text::answer::{Answer, NOTHING, Shown};
use scene_text::line::{Line, cut, line_of};
use scene_text::page::Page;
use scene_text::verbs::Verb;
use scene_text::words::number_of;
use std::alloc::Global;
use std::io::Write;

/// Plays each scene, up to a line that is none.
pub fn play_text(
    rt: &impl Host,
    alloc: Global,
    turns: u64,
    text: &str,
    page: &mut Page,
    out: &mut impl Write,
) {
    let mut scene = None;
    for (at, line) in text.lines().enumerate() {
        if line.is_empty() {
            end_scene(rt, &mut scene, page);
            page.put("\n");
            page.write(out);
        } else if !play_line(rt, alloc, turns, &mut scene, at as u64, line, page) {
            page.put("\n");
            page.fault_at(at as u64 + 1);
            break;
        }
    }
    end_scene(rt, &mut scene, page);
    page.write(out);
}

// Plays the line with this number, counted from 0, and puts it with its answer. Whether it is one.
fn play_line<'t>(
    rt: &impl Host,
    alloc: Global,
    turns: u64,
    scene: &mut Option<Scene<'t>>,
    at: u64,
    text: &'t str,
    page: &mut Page,
) -> bool {
    let (played, wanted) = cut(text);
    page.put(played);
    if text.starts_with('#') {
        page.put("\n");
        return true;
    }
    let from = page.place();
    let Some(line) = line_of(played) else {
        return false;
    };
    let is_one = match scene {
        None => begin_scene(alloc, turns, scene, &line, page),
        Some(scene) => step(rt, scene, &line, page),
    };
    if let Some(wanted) = wanted {
        if is_one {
            page.compare(from, wanted, at.saturating_add(1));
        }
    }
    is_one
}

// Plays a line of a scene, and puts its answer with what its process has read or visited.
fn step<'t>(rt: &impl Host, scene: &mut Scene<'t>, line: &Line<'t>, page: &mut Page) -> bool {
    let Some(answer) = play_again(rt, scene, line) else {
        return false;
    };
    scene.is_left = matches!(line.verb, Verb::Left);
    let shown = Shown {
        told: scene.told.as_slice(),
        ..shown_of(&scene.processes, line.process.unwrap_or(0))
    };
    page.put_answer(answer, shown);
    true
}

// A line that finds no memory is played once more: a call that is refused memory leaves all as it
// was. What a call came to that was started before is answered as it came.
fn play_again<'t>(rt: &impl Host, scene: &mut Scene<'t>, line: &Line<'t>) -> Option<Answer> {
    let is_told = matches!(line.verb, Verb::Ends | Verb::Acted(_));
    match play(rt, scene, line)? {
        Answer::Fault(Fault::Memory) | Answer::FaultAfter(Fault::Memory, _) if !is_told => {
            play(rt, scene, line)
        }
        answer => Some(answer),
    }
}

// The first line of a scene: `kernel PROCS RENDEZ`, or `plan` and what it counts. Where it finds no
// memory it is played once more.
fn begin_scene<'t>(
    alloc: Global,
    turns: u64,
    scene: &mut Option<Scene<'t>>,
    line: &Line,
    page: &mut Page,
) -> bool {
    let opened = match open_scene(alloc, turns, line) {
        Some(Err(Fault::Memory)) => open_scene(alloc, turns, line),
        opened => opened,
    };
    let answer = match opened {
        Some(Ok(opened)) => {
            set(scene, Some(opened));
            Answer::Nothing
        }
        Some(Err(fault)) => Answer::Fault(fault),
        None => return false,
    };
    page.put_answer(answer, NOTHING);
    page.count_scene();
    true
}

// The scene that this line begins, if it is a first line.
fn open_scene<'t>(alloc: Global, turns: u64, line: &Line) -> Option<Result<Scene<'t>, Fault>> {
    Some(open(alloc, turns, begin(alloc, kernel_of(alloc, line)?)))
}

// The kernel that a first line asks for.
fn kernel_of(alloc: Global, line: &Line) -> Option<Result<OpenedKernel, Fault>>
    ensures { IfSome result (λ made. IfOk made (λ opened. IsStartOf opened.kernel opened.start)) }
{
    match line.verb {
        Verb::Plan(text) => Some(plan_of(text)?.build(alloc)),
        Verb::Kernel(procs, rendez) => Some(Kernel::new(alloc, procs, rendez)),
        _ => None,
    }
}

// What a plan counts: each kind of object with its number after it.
fn plan_of(text: &str) -> Option<Plan> {
    let mut plan = Plan::new();
    let mut words = text.split_whitespace();
    for _ in 0..text.len() {
        let Some(kind) = words.next() else {
            break;
        };
        plan = planned(plan, kind, number_of(words.next()?)?)?;
    }
    Some(plan)
}

// A plan with so many of one kind of object more.
fn planned(plan: Plan, kind: &str, count: u64) -> Option<Plan> {
    match kind {
        "processes" => Some(plan.processes(count)),
        "rendez" => Some(plan.rendez(count)),
        "pipe" => Some(plan.pipe(count)),
        "space" => Some(plan.space(count)),
        "sema" => Some(plan.semaphore(count)),
        "queue" => Some(plan.queue(count)),
        "clock" => Some(plan.timers(count)),
        _ => None,
    }
}

// What runs still is called off, unless the last line has done so; what even then doesn't end is
// told.
fn end_scene(rt: &impl Host, scene: &mut Option<Scene<'_>>, page: &mut Page) {
    if let Some(opened) = scene {
        if !opened.is_left {
            let off = leave(rt, opened);
            if off.stuck > 0 {
                page.put("left");
                page.put_answer(off.answer(), NOTHING);
            }
        }
    }
    set(scene, None);
}
