ghost use Rattle.std.specs.Prelude.{◌≡◌};
ghost use Rattle.command_outcome.specs.Ends.{Delivers, paper, reply_of, reply_status, reply_text};

use crate::outcome::{Role, Status, Stop};
use outside_io::Sink;

/// What a call comes to, before anything is written.
#[derive(Drop)]
pub enum Reply {
    /// The command's work is done, and this is its text.
    Done(Vec<u8>),
    /// The command ended before its work was done.
    Stopped(Stop),
    /// The words have no reading.
    Usage,
}

impl Reply {
    /// What a command's end comes to.
    pub fn to(end: Result<Vec<u8>, Stop>) -> Reply
        ensures { result ≡ reply_of end }
    {
        match end {
            Ok(text) => Reply::Done(text),
            Err(stop) => Reply::Stopped(stop),
        }
    }

    /// How the call is to end.
    pub fn status(&self) -> Status
        ensures { result ≡ reply_status self.now }
    {
        match self {
            Reply::Done(_) => Status::Done,
            Reply::Stopped(Stop::Ended(ending, _)) => ending.status(),
            Reply::Stopped(Stop::Unread(_)) => Status::ReadFault,
            Reply::Stopped(Stop::Unsaved) => Status::WriteFault,
            Reply::Stopped(Stop::NoMemory) => Status::NoMemory,
            Reply::Usage => Status::Usage,
        }
    }

    /// What is to be written, whole. It takes no memory.
    pub fn text(&self) -> &[u8]
        ensures { result.now ≡ reply_text self.now }
    {
        match self {
            Reply::Done(text) | Reply::Stopped(Stop::Ended(_, text)) => text.as_slice(),
            Reply::Stopped(Stop::Unread(role)) => role.unread_line().as_bytes(),
            Reply::Stopped(Stop::Unsaved | Stop::NoMemory) => b"",
            Reply::Usage => b"usage: see --help\n",
        }
    }
}

/// Writes the reply's text in one go. Where memory ran out or a save failed nothing is written.
pub fn deliver<K: Sink>(out: &mut K, reply: &Reply) -> Status
    ensures { Delivers (reply_status reply.now) (reply_text reply.now) (paper K.written K.faults out.old)
        (paper K.written K.faults out.new) result }
{
    match reply.status() {
        Status::NoMemory => Status::NoMemory,
        Status::WriteFault => Status::WriteFault,
        status => match out.write(reply.text()) {
            Ok(()) => status,
            Err(_) => Status::WriteFault,
        },
    }
}
