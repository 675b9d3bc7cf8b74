/// A place of the table.
#[derive(Clone, Copy, PartialEq, Eq, Hash)]
pub enum Place {
    Start,
    Left,
    Right,
    End,
    Yard,
}
