use crate::name::Name;
use crate::violation::Violation;

/// A vector of violations with the name of what violates so much.
#[derive(Drop)]
pub struct Row {
    /// What it is of, as a trajectory.
    pub name: Name,
    /// How much each rule is violated, in the rules' order.
    pub values: Violation,
}
