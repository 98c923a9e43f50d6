//! Notes after notify(2): what a process can be sent while it runs or sleeps.
ghost use Rattle.std.specs.Prelude.{◌≡◌, ◌↔◌, ◌||◌, ◌&&◌, not, false, IsTrue};
ghost use Rattle.sync_base.specs.Note.{note_text};
ghost use Rattle.sync_base.specs.NoteSet.{holds, is_same_note, joined, no_notes, only};

/// A kind of note. notify(2) has texts of any kind; these five are the library's own choice.
#[derive(Clone, Copy, Debug, PartialEq, Eq)]
pub enum Note {
    /// `interrupt`: the user asks the process to stop what it does.
    Interrupt,
    /// `hangup`: the other side of a connection is gone.
    Hangup,
    /// `alarm`: a moment that the process asked for has come.
    Alarm,
    /// `sys: write on closed pipe`: the process wrote where nobody will read.
    ClosedPipe,
    /// `expired`: the time that a wait was given is over. The library's timers post it.
    Expired,
}

impl Note {
    /// The text of the note as notify(2) shows it.
    pub fn text(self) -> &'static str
        ensures { result.now ≡ note_text self }
    {
        match self {
            Note::Interrupt => "interrupt",
            Note::Hangup => "hangup",
            Note::Alarm => "alarm",
            Note::ClosedPipe => "sys: write on closed pipe",
            Note::Expired => "expired",
        }
    }
}

/// A set of notes: each kind at most once, in no order.
#[derive(Clone, Copy, Debug, PartialEq, Eq)]
pub struct NoteSet {
    interrupt: bool,
    hangup: bool,
    alarm: bool,
    closed_pipe: bool,
    expired: bool,
}

impl NoteSet {
    /// The set of no notes.
    pub const fn empty() -> Self
        ensures value { result ≡ no_notes }
        ensures kinds { (note : Note) → holds result note ≡ false }
    {
        NoteSet {
            interrupt: false,
            hangup: false,
            alarm: false,
            closed_pipe: false,
            expired: false,
        }
    }

    /// The set of this note alone.
    pub fn of(note: Note) -> Self
        ensures value { result ≡ only note }
        ensures kinds { (other : Note) → holds result other ≡ is_same_note note other }
    {
        NoteSet {
            interrupt: note == Note::Interrupt,
            hangup: note == Note::Hangup,
            alarm: note == Note::Alarm,
            closed_pipe: note == Note::ClosedPipe,
            expired: note == Note::Expired,
        }
    }

    /// Whether the note is in the set.
    pub fn has(self, note: Note) -> bool
        ensures { result ≡ holds self note }
    {
        match note {
            Note::Interrupt => self.interrupt,
            Note::Hangup => self.hangup,
            Note::Alarm => self.alarm,
            Note::ClosedPipe => self.closed_pipe,
            Note::Expired => self.expired,
        }
    }

    /// The notes of both sets.
    pub fn join(self, other: NoteSet) -> Self
        ensures value { result ≡ joined self other }
        ensures kinds { (note : Note) → holds result note ≡ (holds self note || holds other note) }
    {
        NoteSet {
            interrupt: self.interrupt || other.interrupt,
            hangup: self.hangup || other.hangup,
            alarm: self.alarm || other.alarm,
            closed_pipe: self.closed_pipe || other.closed_pipe,
            expired: self.expired || other.expired,
        }
    }

    /// The notes of this set that are not in the other.
    pub fn without(self, other: NoteSet) -> Self
        ensures { (note : Note) → holds result note ≡ (holds self note && not (holds other note)) }
    {
        NoteSet {
            interrupt: self.interrupt && !other.interrupt,
            hangup: self.hangup && !other.hangup,
            alarm: self.alarm && !other.alarm,
            closed_pipe: self.closed_pipe && !other.closed_pipe,
            expired: self.expired && !other.expired,
        }
    }

    /// Whether no note is in the set.
    pub fn is_empty(self) -> bool
        ensures { IsTrue result ↔ (self ≡ no_notes) }
    {
        self == NoteSet::empty()
    }
}
