ghost use Rattle.std.specs.Prelude.{◌≡◌};
ghost use Rattle.trajectory_judge.specs.declared.fault.RecordFault.TheVariants as faults;

use preorder::NoMemory;

/// Why bytes are no recordings. A number is that of the first faulty row, counted from 1 after the
/// header. Of the faults of a row, the one that stands first here is named.
#[derive(Clone, Copy, Debug, PartialEq, Eq)]
pub enum RecordFault {
    /// The first row is not the names of the columns, or there is none.
    WrongHeader,
    /// The row has not nine fields.
    Csv(usize),
    /// Its first field is no name.
    BadName(usize),
    /// One of its numbers is no decimal, or out of its range.
    BadNumber(usize),
    /// Its last field is neither empty nor the name of a maneuver.
    UnknownManeuver(usize),
    /// It has the name of the row before, and not the next tick.
    TickGap(usize),
    /// It has the name of a recording that has ended.
    DuplicateName(usize),
    /// There are `MAX_RECORDINGS` recordings before it, or `MAX_RECORDED_STEPS` steps of its own
    /// recording.
    TooMany(usize),
    /// There is no row after the header.
    Empty,
    /// Memory could not be had.
    NoMemory,
}

impl From<NoMemory> for RecordFault {
    ghost from_gives = { λ _ e. e ≡ faults.NoMemory };

    fn from(_e: NoMemory) -> RecordFault {
        RecordFault::NoMemory
    }
}
