//! What is printed, and what of it was wanted otherwise.
use crate::answer::{Answer, Shown};
use crate::told::tell_answer;
use std::alloc::Global;
use std::io;
use std::io::Write;

/// What stands before an answer.
const MARK: &str = " = ";

/// The lines so far of a scene, and how all lines went. What finds no memory is left out, and the
/// page says so.
#[derive(Drop)]
pub struct Page {
    text: Vec<u8>,
    /// Of this text: the first line that differs, as it was wanted and as it came.
    first: Option<u64>,
    wanted: Vec<u8>,
    came: Vec<u8>,
    fault: Option<u64>,
    /// Why it can't be read.
    unread: Option<&'static str>,
    /// Of all texts.
    scenes: u64,
    agree: u64,
    good: bool,
    lacks: bool,
    failed: bool,
}

impl Page {
    /// An empty page.
    pub fn new(alloc: Global) -> Page {
        Page {
            text: Vec::new(alloc),
            first: None,
            wanted: Vec::new(alloc),
            came: Vec::new(alloc),
            fault: None,
            unread: None,
            scenes: 0,
            agree: 0,
            good: true,
            lacks: false,
            failed: false,
        }
    }

    /// Adds a text.
    pub fn put(&mut self, text: &str) {
        if self.text.extend_from_slice(text.as_bytes()).is_err() {
            self.lacks = true;
        }
    }

    /// An answer, with what its process has read and visited, or what was told before, and the end
    /// of the line.
    pub fn put_answer(&mut self, answer: Answer, shown: Shown<'_>) {
        if !matches!(answer, Answer::Nothing) {
            self.put(MARK);
            if tell_answer(&mut self.text, answer, shown).is_err() {
                self.lacks = true;
            }
        }
        self.put("\n");
    }

    /// Where the next answer begins.
    pub fn place(&self) -> usize {
        self.text.len()
    }

    /// Compares what stands from this place on with what was wanted there.
    pub fn compare(&mut self, from: usize, wanted: &str, line: u64) {
        let came = answer_from(self.text.as_slice(), from);
        let wanted = wanted.as_bytes().trim_ascii();
        if came == wanted {
            self.agree = self.agree.saturating_add(1);
            return;
        }
        self.good = false;
        if self.first.is_none() {
            self.first = Some(line);
            let has_room = self.wanted.extend_from_slice(wanted).is_ok()
                && self.came.extend_from_slice(came).is_ok();
            self.lacks = self.lacks || !has_room;
        }
    }

    /// Counts one scene more.
    pub fn count_scene(&mut self) {
        self.scenes = self.scenes.saturating_add(1);
    }

    /// The line that is none.
    pub fn fault_at(&mut self, line: u64) {
        self.fault = Some(line);
        self.good = false;
    }

    /// There was no memory for all of it.
    pub fn lack(&mut self) {
        self.lacks = true;
    }

    /// The text can't be read, for this reason.
    pub fn miss(&mut self, why: &'static str) {
        self.unread = Some(why);
        self.good = false;
    }

    /// Writes the lines so far, and begins anew.
    pub fn write(&mut self, to: &mut impl Write) {
        if to.write_all(self.text.as_slice()).is_err() || to.flush().is_err() {
            self.failed = true;
        }
        self.text.clear();
    }

    /// Whether all went well.
    pub fn is_good(&self) -> bool {
        self.good && !self.lacks && !self.failed
    }

    /// Says where a text differs first, which of its lines is none, or that it can't be read. Then
    /// the page is ready for the next.
    pub fn report(&mut self, name: &str, to: &mut impl Write) -> io::Result<()> {
        if let Some(line) = self.first {
            write!(to, "p9lab: {name}: line {line}: wanted ")?;
            to.write_all(self.wanted.as_slice())?;
            to.write_all(b", got ")?;
            to.write_all(self.came.as_slice())?;
            to.write_all(b"\n")?;
        }
        if let Some(line) = self.fault {
            write!(to, "p9lab: {name}: scene fault at line {line}\n")?;
        }
        if let Some(why) = self.unread {
            write!(to, "p9lab: {name}: can't be read: {why}\n")?;
        }
        self.first = None;
        self.fault = None;
        self.unread = None;
        self.wanted.clear();
        self.came.clear();
        Ok(())
    }

    /// Says how all went.
    pub fn report_all(&self, to: &mut impl Write) -> io::Result<()> {
        if self.lacks {
            to.write_all(b"p9lab: out of memory\n")?;
        }
        if self.failed {
            to.write_all(b"p9lab: device fault\n")?;
        }
        write!(to, "{} scenes, {} lines agree\n", self.scenes, self.agree)?;
        to.flush()
    }
}

// The answer that begins there, without ` = ` and the end of its line.
fn answer_from(text: &[u8], from: usize) -> &[u8] {
    let from = from.saturating_add(MARK.len()).min(text.len());
    text[from..].trim_ascii()
}
