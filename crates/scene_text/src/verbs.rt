//! What a line asks for. A new call is a variant here, a row where it is read (`line`), and an arm
//! of the roles that make it.
use sync_base::{Flags, Mode, NoteSet};

/// A role, as a line names it.
#[derive(Clone, Copy, PartialEq, Eq)]
pub enum RoleName {
    Plain,
    Reader,
    Writer,
    /// Each writer of a direction.
    Writers,
    Holder,
    Guest,
    Sharer,
    Sender,
    Receiver,
}

impl RoleName {
    /// Whether a process in this role makes this call.
    pub fn makes(self, call: Call) -> bool {
        match call {
            Call::Sleep(_, _) | Call::SleepWithin(_, _, _) | Call::Wakeup(_, _) => self.forks(),
            Call::Tick(_) | Call::PutBack(_) => self.forks(),
            Call::Note(_, _) | Call::Notes => self != RoleName::Sharer,
            Call::Write | Call::WriteWithin(_) | Call::WriteLong => self == RoleName::Writer,
            Call::Read(_) => matches!(self, RoleName::Reader | RoleName::Sharer),
            Call::ReadWithin(_, _) | Call::TryRead(_) | Call::ReadBlock => self == RoleName::Reader,
            Call::NextPiece(_) | Call::ReadExact(_) => self == RoleName::Reader,
            Call::Hangup => self.hangs_up(),
            Call::Acquire | Call::TryAcquire | Call::AcquireWithin(_) => self == RoleName::Holder,
            Call::Release(_) => self == RoleName::Holder,
            Call::Rendezvous(_, _) | Call::RendezvousWithin(_, _, _) => self == RoleName::Guest,
            Call::RendezvousWord(_, _) => self == RoleName::Guest,
            Call::Send(_) | Call::SendWithin(_, _) | Call::TrySend(_) => self == RoleName::Sender,
            Call::Receive | Call::ReceiveWithin(_) => self == RoleName::Receiver,
            Call::TryReceive => self == RoleName::Receiver,
            Call::Rendez => matches!(self, RoleName::Holder | RoleName::Guest)
                || self.is_of_queue(),
        }
    }

    // Whether what it has can be hung up.
    fn hangs_up(self) -> bool {
        matches!(self, RoleName::Reader | RoleName::Writer) || self.is_of_queue()
    }

    // Whether it is at a queue.
    fn is_of_queue(self) -> bool {
        matches!(self, RoleName::Sender | RoleName::Receiver)
    }

    /// Whether a process in this role makes the calls of a process alone, and forks.
    pub fn forks(self) -> bool {
        matches!(self, RoleName::Plain | RoleName::Reader | RoleName::Writer)
    }
}

/// A role at an object, and whether it is at the direction back.
#[derive(Clone, Copy, PartialEq, Eq)]
pub struct RoleAt {
    pub name: RoleName,
    pub object: u64,
    pub back: bool,
}

/// A call with a deadline ends so many milliseconds from a moment on.
#[derive(Clone, Copy)]
pub struct Deadline {
    pub now: u64,
    pub ms: u32,
}

/// What a line asks for, with its operands in their order. Objects are named by their numbers.
#[derive(Clone, Copy)]
pub enum Verb<'t> {
    // the first line
    Kernel(u64, u64),
    Plan(&'t str),
    // objects
    Pipe(Mode, u64, u64),
    Share(u64, u64),
    Sema(u32, u64),
    Clock(u64),
    Space(u64),
    NewGroup(u64),
    Queue(u64, u64),
    // processes
    Stranger(u64, u64, RoleAt),
    Fork(Option<RoleAt>),
    Rfork(Flags, Option<RoleAt>),
    Gets(RoleAt),
    TakeSeat(u64),
    NoteGroup(u64, NoteSet),
    // what is given away, and what is left
    GiveRendez,
    GiveRow(u64),
    PidsLeft,
    RendezLeft,
    TickAt(u64, u64),
    // calls on threads
    Waits,
    Ends,
    Left,
    Look,
    Level(u64),
    // calls at points
    At(u64, &'t str),
    Acted(u64),
    Points,
    Posted,
    /// A call, with a word for the bytes that it writes.
    Makes(Call, &'t str),
}

/// A call, and the role in which it is made, if a line names one.
#[derive(Clone, Copy)]
pub struct Asked {
    pub call: Call,
    pub role: Option<RoleAt>,
}

impl Asked {
    /// Whether it may be made in this role.
    pub fn suits(self, role: RoleAt) -> bool {
        let is_named = match self.role {
            Some(named) => named == role,
            None => true,
        };
        is_named && role.name.makes(self.call)
    }
}

/// A call that a process makes in its role.
#[derive(Clone, Copy)]
pub enum Call {
    // sleep(2), postnote(2)
    Sleep(u64, u64),
    SleepWithin(Deadline, u64, u64),
    Wakeup(u64, u64),
    Tick(u64),
    Note(u64, NoteSet),
    Notes,
    PutBack(NoteSet),
    // pipe(2)
    Write,
    WriteWithin(Deadline),
    WriteLong,
    Read(u64),
    ReadWithin(Deadline, u64),
    TryRead(u64),
    ReadBlock,
    NextPiece(u64),
    ReadExact(u64),
    Hangup,
    // semacquire(2)
    Acquire,
    TryAcquire,
    AcquireWithin(Deadline),
    Release(u32),
    // rendezvous(2)
    Rendezvous(u64, u64),
    RendezvousWithin(Deadline, u64, u64),
    RendezvousWord(u64, u64),
    // queue(2)
    Send(u64),
    SendWithin(Deadline, u64),
    TrySend(u64),
    Receive,
    ReceiveWithin(Deadline),
    TryReceive,
    // the Rendez in which a process waits for a unit, a partner, room or a value
    Rendez,
}

impl Call {
    /// Whether it takes a probe.
    pub fn takes_probe(self) -> bool {
        match self {
            Call::Sleep(_, _) | Call::Acquire | Call::TryAcquire | Call::AcquireWithin(_) => true,
            Call::Rendezvous(_, _) | Call::RendezvousWithin(_, _, _) => true,
            _ => false,
        }
    }

    /// For how many bytes it has room, if it is a read that says so.
    pub fn room(self) -> Option<u64> {
        match self {
            Call::Read(count) | Call::ReadWithin(_, count) | Call::TryRead(count) => Some(count),
            Call::NextPiece(count) | Call::ReadExact(count) => Some(count),
            _ => None,
        }
    }
}
