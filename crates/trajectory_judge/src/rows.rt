ghost use Rattle.std.specs.Prelude.{◌≡◌, ◌<◌, ◌≤◌, ◌^◌, length, true, false, IsTrue, [], Some};
ghost use Rattle.std.specs.Prelude.{None, IfOk, IfErr};
ghost use Rattle.std.specs.Bool.{OnFalse};
ghost use Rattle.csv.specs.Records.{fields_of, field_at};
ghost use Rattle.reading.specs.Reading.{Gives};
ghost use Rattle.trajectory_judge.specs.Faults.{is_memory};
ghost use Rattle.trajectory_judge.specs.Rows.{COLUMNS, columns, is_header, rows_left, row_of};
ghost use Rattle.trajectory_judge.specs.Rows.{row_width, rows_of, under_header, IsOpen, GotRow};
ghost use Rattle.trajectory_judge.specs.Rows.{IsUneven};
ghost use Rattle.trajectory_judge.specs.declared.rows.RowFault.TheVariants as fault;

use crate::fault::RecordFault;
use csv::{ByteRecord, ErrorKind, Reader, ReaderBuilder};
use std::alloc::Global;

/// Why a row can't be had.
#[derive(Clone, Copy, Debug, PartialEq, Eq)]
pub enum RowFault {
    /// It has not as many fields as the first.
    Uneven,
    /// Memory could not be had.
    NoMemory,
}

/// The rows of a file of comma-separated values, one after the other.
#[derive(Drop)]
pub struct Rows<'a> {
    reader: Reader<&'a [u8]>,
    record: ByteRecord,
}

/// The fields of a row, by their columns.
#[derive(Clone, Copy)]
pub struct Fields<'a> {
    pub name: &'a [u8],
    pub tick: &'a [u8],
    pub x: &'a [u8],
    pub y: &'a [u8],
    pub heading: &'a [u8],
    pub speed: &'a [u8],
    pub accel: &'a [u8],
    pub turn: &'a [u8],
    pub maneuver: &'a [u8],
}

// Whether each field is the name of its column.
#[tactic(auto, unfolding(crate::specs::Rows::is_header))]
fn is_header(fields: &Fields<'_>) -> bool
    ensures { result ≡ is_header (columns fields.now) }
{
    fields.name == b"name".as_slice()
        && fields.tick == b"tick".as_slice()
        && fields.x == b"x".as_slice()
        && fields.y == b"y".as_slice()
        && fields.heading == b"heading".as_slice()
        && fields.speed == b"speed".as_slice()
        && fields.accel == b"accel".as_slice()
        && fields.turn == b"turn".as_slice()
        && fields.maneuver == b"maneuver".as_slice()
}

// The field at a place.
fn field(row: &ByteRecord, place: usize) -> &[u8]
    requires { place < length (fields_of row.now) }
    ensures { field_at (fields_of row.now) place ≡ Some result.now }
{
    match row.get(place) {
        Some(field) => field,
        None => &[],
    }
}

// How many bytes there are is a `usize`.
fn prove_short(bytes: &[u8])
    ensures { length bytes.now < 2 ^ 64 }
{
    let _ = bytes.len();
}

impl<'a> Rows<'a> {
    // All rows of some bytes.
    fn of(alloc: Global, bytes: &'a [u8]) -> Rows<'a>
        ensures open { IsOpen result }
        ensures left { rows_left result ≡ rows_of bytes.now }
        ensures few { length (rows_left result) ≤ 2 ^ 64 }
        ensures width { row_width result ≡ None }
    {
        prove_short(bytes);
        Rows {
            reader: ReaderBuilder::new()
                .has_headers(false)
                .from_reader(alloc, bytes),
            record: ByteRecord::new(alloc),
        }
    }

    /// Takes the next row, if there is one.
    pub fn read(&mut self) -> Result<bool, RowFault>
        requires { IsOpen self.old }
        ensures some { IfOk result (λ found. found ≡ true → GotRow self.old self.new) }
        ensures none { IfOk result (λ found. found ≡ false → rows_left self.old ≡ []) }
        ensures uneven { IfErr result (λ e. e ≡ fault.Uneven → IsUneven self.old) }
    {
        match self.reader.read_byte_record(&mut self.record) {
            Ok(found) => Ok(found),
            Err(error) => match error.kind() {
                ErrorKind::UnequalLengths { .. } => Err(RowFault::Uneven),
                _ => Err(RowFault::NoMemory),
            },
        }
    }

    /// The fields of the row that was taken last, where it has nine.
    pub fn fields(&self) -> Fields<'_>
        requires { length (row_of self.now) ≡ COLUMNS }
        ensures { row_of self.now ≡ columns result }
    {
        Fields {
            name: field(&self.record, 0),
            tick: field(&self.record, 1),
            x: field(&self.record, 2),
            y: field(&self.record, 3),
            heading: field(&self.record, 4),
            speed: field(&self.record, 5),
            accel: field(&self.record, 6),
            turn: field(&self.record, 7),
            maneuver: field(&self.record, 8),
        }
    }

    // Whether the row that was taken last is the header.
    #[tactic(auto, using(crate::proofs::Columns::no_header))]
    fn is_at_header(&self) -> bool
        ensures exact { result ≡ is_header (row_of self.now) }
        ensures nine { IsTrue result → length (row_of self.now) ≡ COLUMNS }
    {
        self.record.len() == 9 && is_header(&self.fields())
    }

    /// The rows of some bytes under the header.
    pub fn under_header(alloc: Global, bytes: &'a [u8]) -> Result<Rows<'a>, RecordFault>
        ensures exact { Gives is_memory rows_left result (under_header (rows_of bytes.now)) }
        ensures open { IfOk result IsOpen }
        ensures few { IfOk result (λ rows. length (rows_left rows) < 2 ^ 64) }
        ensures width { IfOk result (λ rows. row_width rows ≡ Some COLUMNS) }
    {
        let mut rows = Rows::of(alloc, bytes);
        // The first row sets how many fields there are, so it is not uneven.
        let Ok(found) = rows.read() else {
            return Err(RecordFault::NoMemory);
        };
        if !found || !rows.is_at_header() {
            return Err(RecordFault::WrongHeader);
        }
        Ok(rows)
    }
}
