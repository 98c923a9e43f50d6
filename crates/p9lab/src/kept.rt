//! Lines that are played at the points of a call.
use crate::calling::{CalledOff, Until, call_off, comes, ending, interrupt_at, outcome};
use crate::lines::{Step, begin};
use crate::progress::{Progress, Stops};
use crate::scene::{Host, STRANGERS, Scene, place_of, set, shown_of};
use plan9::Fault;
use scene_text::answer::{Answer, OK};
use scene_text::line::{Line, line_of};
use scene_text::told::tell_answer;
use scene_text::verbs::Verb;
use scene_text::words::number_of;
use std::thread::yield_now;

/// How many lines a call may have.
pub const LINES: usize = 8;

/// The point at whose first visit a line is played, and what it was answered once it was.
#[derive(Clone, Copy)]
struct KeptLine {
    point: u64,
    answer: Option<Answer>,
}

/// The lines that are kept for the next call, or of the last one.
#[derive(Clone, Copy)]
pub struct KeptLines<'t> {
    rows: [KeptLine; LINES],
    texts: [&'t str; LINES],
    count: usize,
    stops: Stops,
    /// The place of the process whose call has them.
    owner: Option<usize>,
    /// That call has ended: a later one of the process has begun.
    is_over: bool,
}

impl<'t> KeptLines<'t> {
    /// Before any was written down.
    pub fn none() -> KeptLines<'t> {
        let answer = Some(Answer::Nothing);
        let row = KeptLine { point: 0, answer };
        let texts = [""; LINES];
        KeptLines {
            rows: [row; LINES],
            texts,
            count: 0,
            stops: Stops::none(),
            owner: None,
            is_over: false,
        }
    }

    /// Where the next call stops.
    pub fn next_stops(&self) -> Stops {
        match self.owner {
            Some(_) => Stops::none(),
            None => self.stops,
        }
    }

    /// The call of this place, which has started, has those that are kept for the next one. Those
    /// of an earlier call of the same place are over.
    pub fn take(&mut self, at: usize) {
        match self.owner {
            None if self.stops.probed => self.owner = Some(at),
            Some(owner) if owner == at => self.is_over = true,
            _ => {}
        }
    }

    // Whether one of them is still to come.
    fn are_ahead(&self) -> bool {
        self.rows.iter().any(|row| row.answer.is_none())
    }

    // Writes one more down for the next call, if there is room.
    fn keep(&mut self, point: u64, text: &'t str) -> bool {
        let at = self.count;
        if at >= LINES {
            return false;
        }
        let answer = None;
        self.rows[at] = KeptLine { point, answer };
        self.texts[at] = text;
        self.count = at + 1;
        self.stops.add(point);
        true
    }

    // What the line at this place was answered.
    fn tell(&mut self, at: usize, answer: Answer) {
        if let Some(row) = self.rows.get_mut(at) {
            row.answer = Some(answer);
        }
    }

    // The line with this number, counted from 1.
    fn row(&self, number: u64) -> Option<KeptLine> {
        let at = number.checked_sub(1)? as usize;
        self.rows.get(..self.count)?.get(at).copied()
    }
}

/// Plays a line. One that is none has no answer.
pub fn play<'t>(rt: &impl Host, scene: &mut Scene<'t>, line: &Line<'t>) -> Option<Answer> {
    match line.verb {
        Verb::At(point, text) => keep_line(scene, point, text),
        Verb::Acted(number) => {
            let row = scene.kept.row(number)?;
            Some(row.answer.unwrap_or(Answer::Word("not reached")))
        }
        _ => match begin(rt, scene, line)? {
            Step::Answered(answer) => Some(answer),
            Step::Awaits(at, until) => {
                let came = comes_served(rt, scene, at, until);
                Some(ending(rt, scene, at, until, came))
            }
            Step::CallsOff => Some(leave(rt, scene).answer()),
        },
    }
}

// Writes a line down: `at POINT LINE`, or `at POINT` for a visit at which nothing is done. One of a
// process but 0 has to be one.
fn keep_line<'t>(scene: &mut Scene<'t>, point: u64, text: &'t str) -> Option<Answer> {
    if point == 0 {
        return None;
    }
    let first = text.split_whitespace().next();
    let number = first.and_then(number_of).unwrap_or(0);
    if number > 0 {
        line_of(text)?;
        place_of(&scene.processes, number)?;
    }
    if !begin_anew(scene) || !scene.kept.keep(point, text) {
        return Some(Answer::Word("too many"));
    }
    Some(Answer::Word("kept"))
}

// Forgets the lines of the last call. They stay while it runs and has some still to come.
fn begin_anew(scene: &mut Scene) -> bool {
    let Some(owner) = scene.kept.owner else {
        return true;
    };
    let runs = !scene.kept.is_over && outcome(scene, owner, Until::Ends) != Some(true);
    if runs && scene.kept.are_ahead() {
        return false;
    }
    set(&mut scene.kept, KeptLines::none());
    scene.told.clear();
    true
}

// Whether it comes to be so, within so many turns. Whatever call stands at a point is served.
fn comes_served(rt: &impl Host, scene: &mut Scene, at: usize, until: Until) -> bool {
    for _ in 0..scene.turns {
        serve(rt, scene);
        if let Some(came) = outcome(scene, at, until) {
            return came;
        }
        yield_now();
    }
    false
}

// Plays the lines of the point at which the call stands, and lets it go.
fn serve(rt: &impl Host, scene: &mut Scene) {
    let Some(progress) = owner(scene) else {
        return;
    };
    let point = progress.stands_at();
    if point == 0 {
        return;
    }
    for at in 0..LINES {
        let row = scene.kept.rows[at];
        if row.point == point && row.answer.is_none() {
            let text = scene.kept.texts[at];
            let answer = play_kept(rt, scene, text);
            scene.kept.tell(at, answer);
        }
    }
    progress.let_go();
}

// How far the call is that has the lines.
fn owner(scene: &Scene) -> Option<&'static Progress> {
    Some(scene.processes.get(scene.kept.owner?)?.progress)
}

// Plays a kept line, and tells its answer among the scene's texts as it is then: a later call has
// other bytes.
fn play_kept<'t>(rt: &impl Host, scene: &mut Scene<'t>, text: &'t str) -> Answer {
    if text.split_whitespace().next().is_none() {
        return told_in(scene, 0, OK);
    }
    let Some(line) = line_of(text) else {
        return told_in(scene, 0, Answer::Word("no line"));
    };
    let answer = match begin(rt, scene, &line) {
        None => Answer::Word("no line"),
        Some(Step::Answered(answer)) => answer,
        Some(Step::Awaits(at, until)) => {
            let came = comes(scene, at, until);
            ending(rt, scene, at, until, came)
        }
        Some(Step::CallsOff) => call_off(rt, scene).answer(),
    };
    told_in(scene, line.process.unwrap_or(0), answer)
}

// The answer of a line of this process, among the scene's texts.
fn told_in(scene: &mut Scene, number: u64, answer: Answer) -> Answer {
    let from = scene.told.len();
    let shown = shown_of(&scene.processes, number);
    match tell_answer(&mut scene.told, answer, shown) {
        Ok(()) if scene.told.len() == from => Answer::Nothing,
        Ok(()) => Answer::Told(from, scene.told.len()),
        Err(_) => Answer::Fault(Fault::Memory),
    }
}

// ---- the end of a scene

/// Ends each call that runs still by a note. The lines of the last call are played where it comes
/// to their points; a call that one of them starts is ended as well.
pub fn leave(rt: &impl Host, scene: &mut Scene) -> CalledOff {
    let mut off = CalledOff::none();
    for _ in 0..usize::MAX {
        let before = off.ended;
        off.stuck = 0;
        end_calls(rt, scene, false, &mut off);
        if off.ended == before {
            end_calls(rt, scene, true, &mut off);
        }
        if off.ended == before {
            break;
        }
    }
    off
}

// Ends each call that runs by now, of the strangers or of the others, in the order of their places.
fn end_calls(rt: &impl Host, scene: &mut Scene, strangers: bool, off: &mut CalledOff) {
    for at in 0..usize::MAX {
        let Some(process) = scene.processes.get(at) else {
            break;
        };
        let is_stranger = process.number >= STRANGERS;
        if is_stranger == strangers && interrupt_at(scene, at) {
            let came = comes_served(rt, scene, at, Until::Ends);
            ending(rt, scene, at, Until::Ends, came);
            off.count(came);
        }
    }
}
