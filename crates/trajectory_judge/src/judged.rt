use preorder::{Name, Violation};

/// How a recording violates each rule, and how far it is from the best.
#[derive(Drop)]
pub struct Judged {
    /// The recording's name.
    pub name: Name,
    /// How many recordings a chain has before this one at most, each of them beating the next.
    pub layer: u32,
    /// How much it violates each rule, in the rules' order.
    pub vector: Violation,
}
