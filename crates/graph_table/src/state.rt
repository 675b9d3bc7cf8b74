/// A state of a table, by its place there.
#[derive(Clone, Copy, PartialEq, Eq, Hash)]
pub struct TableState {
    /// The place of the state, counted from 0.
    pub index: u32,
}
