ghost use Rattle.std.specs.Prelude.{◌≡◌, Some, IfOk};
ghost use Rattle.command_outcome.specs.declared.outcome.Stop.TheVariants as stop;
ghost use Rattle.command_outcome.specs.Outcome.{EndsAs, Refuses, exit_number, fault_at, fault_of};
ghost use Rattle.command_outcome.specs.Outcome.{refused_text};
ghost use Rattle.command_outcome.specs.Outcome.{role_text, status_of, unread_text};

use preorder::NoMemory;
use std::alloc::{AllocError, AllocFailed, Global};

/// How a call ends.
#[derive(Clone, Copy, Debug, PartialEq, Eq)]
pub enum Status {
    /// The command's work is done and its text was written.
    Done,
    /// An input is refused, and the text says which and why.
    Refused,
    /// The words have no reading.
    Usage,
    /// An input file couldn't be read, and the text says which.
    ReadFault,
    /// What was to be saved couldn't be saved, or the text couldn't be written whole.
    WriteFault,
    /// Memory ran out; nothing was saved or written.
    NoMemory,
    /// A certificate fails a condition, and the text says which.
    Rejected,
    /// There are more undominated labels than are searched.
    TooManyLabels,
}

/// What an input is to a command.
#[derive(Clone, Copy, Debug, PartialEq, Eq)]
pub enum Role {
    /// A book of rules.
    Book,
    /// A table of vectors.
    Table,
    /// A CommonRoad document.
    Scenario,
    /// A lattice of maneuvers.
    Lattice,
    /// A list of maneuvers, which is a word and no file.
    List,
    /// A certificate of an answer.
    Certificate,
    /// The book from which another is a step.
    Parent,
    /// The book that is a step from another.
    Child,
    /// A script by which books are derived.
    Script,
    /// Recordings of trajectories.
    Records,
}

/// What is due to a command whose work can't be done.
#[derive(Clone, Copy, Debug, PartialEq, Eq)]
pub enum Ending {
    /// An input has a fault, or inputs don't go together.
    Refused,
    /// A certificate fails a condition.
    Rejected,
    /// There are more undominated labels than are searched.
    TooManyLabels,
}

/// Why a command ends before its work is done.
#[derive(Drop)]
pub enum Stop {
    /// Memory ran out.
    NoMemory,
    /// The file in this role couldn't be read.
    Unread(Role),
    /// Another outcome is due, with this whole text.
    Ended(Ending, Vec<u8>),
    /// What was to be saved couldn't be saved.
    Unsaved,
}

impl From<AllocError> for Stop {
    ghost from_gives = { λ _ end. end ≡ stop.NoMemory };

    fn from(_error: AllocError) -> Stop {
        Stop::NoMemory
    }
}

impl<T: Drop> From<AllocFailed<T>> for Stop {
    ghost from_gives = { λ _ end. end ≡ stop.NoMemory };

    fn from(_error: AllocFailed<T>) -> Stop {
        Stop::NoMemory
    }
}

impl From<NoMemory> for Stop {
    ghost from_gives = { λ _ end. end ≡ stop.NoMemory };

    fn from(_error: NoMemory) -> Stop {
        Stop::NoMemory
    }
}

impl Status {
    /// The number that a program ends with.
    pub fn exit_number(self) -> u8
        ensures { result ≡ exit_number self }
    {
        match self {
            Status::Done => 0,
            Status::Refused => 1,
            Status::Usage => 2,
            Status::ReadFault => 3,
            Status::WriteFault => 4,
            Status::NoMemory => 5,
            Status::Rejected => 6,
            Status::TooManyLabels => 7,
        }
    }
}

impl Ending {
    /// The status of a call that ends so.
    pub fn status(self) -> Status
        ensures { result ≡ status_of self }
    {
        match self {
            Ending::Refused => Status::Refused,
            Ending::Rejected => Status::Rejected,
            Ending::TooManyLabels => Status::TooManyLabels,
        }
    }
}

impl Role {
    /// The word that names the role in a text.
    pub fn text(self) -> &'static str
        ensures { result.now ≡ role_text self }
    {
        match self {
            Role::Book => "book",
            Role::Table => "table",
            Role::Scenario => "scenario",
            Role::Lattice => "lattice",
            Role::List => "list",
            Role::Certificate => "certificate",
            Role::Parent => "parent",
            Role::Child => "child",
            Role::Script => "script",
            Role::Records => "records",
        }
    }

    /// The line that says that the file in this role couldn't be read.
    pub fn unread_line(self) -> &'static str
        ensures { result.now ≡ unread_text self }
    {
        match self {
            Role::Book => "cannot read book\n",
            Role::Table => "cannot read table\n",
            Role::Scenario => "cannot read scenario\n",
            Role::Lattice => "cannot read lattice\n",
            Role::List => "cannot read list\n",
            Role::Certificate => "cannot read certificate\n",
            Role::Parent => "cannot read parent\n",
            Role::Child => "cannot read child\n",
            Role::Script => "cannot read script\n",
            Role::Records => "cannot read records\n",
        }
    }
}

/// The end with this whole text, or want of memory.
pub fn end_as(alloc: Global, ending: Ending, text: &str) -> Stop
    ensures { EndsAs ending text.now result }
{
    match text.as_bytes().to_vec(alloc) {
        Ok(text) => Stop::Ended(ending, text),
        Err(AllocError) => Stop::NoMemory,
    }
}

/// The refusal of the file in this role, or want of memory.
pub fn refuse(alloc: Global, role: Role, fault: &str) -> Stop
    ensures { Refuses role (Some fault.now) result }
{
    let name = role.text();
    match format!(in alloc; "refused {name} {fault}\n") {
        Ok(text) => Stop::Ended(Ending::Refused, text.into_bytes()),
        Err(AllocError) => Stop::NoMemory,
    }
}

/// The refusal by a fault that has a number, as that of a line; or want of memory.
pub fn refuse_at(alloc: Global, role: Role, fault: &str, number: usize) -> Stop
    ensures { Refuses role (Some (fault_at fault.now number)) result }
{
    match format!(in alloc; "{fault} {number}") {
        Ok(fault) => refuse(alloc, role, fault.as_str()),
        Err(AllocError) => Stop::NoMemory,
    }
}

// The line that refuses by a fault of this name.
fn named_line(alloc: Global, role: Role, fault: &str, name: &[u8]) -> Result<Vec<u8>, AllocError>
    ensures { IfOk result (λ text. text.items ≡ refused_text role (fault_of fault.now name.now)) }
{
    let role = role.text();
    let line = format!(in alloc; "refused {role} {fault} ")?;
    let mut text = line.into_bytes();
    text.extend_from_slice(name)?;
    text.push(b'\n')?;
    Ok(text)
}

/// The refusal by a fault that has a name, as that of a rule; or want of memory.
pub fn refuse_named(alloc: Global, role: Role, fault: &str, name: &[u8]) -> Stop
    ensures { Refuses role (Some (fault_of fault.now name.now)) result }
{
    match named_line(alloc, role, fault, name) {
        Ok(text) => Stop::Ended(Ending::Refused, text),
        Err(AllocError) => Stop::NoMemory,
    }
}
