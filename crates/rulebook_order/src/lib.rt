//! Comparison of violation vectors by a pre-order of rules, and the graphs whose lists of choices
//! are compared.
//!
//! The layer above uses the four laws of every `VectorOrder`, the laws of every `StepGraph`, and
//! that `PairOrder`, `why_not`, `compare` and `front_of` answer by the words of
//! `specs/NoWorse.antt`. `RankOrder`, `ChainOrder` and `ParetoOrder` answer as `PairOrder` and take
//! less time; which pre-orders the last two take is said in `specs/Shapes.antt`.
//! A reader begins with these definitions: no worse and beats in `specs/NoWorse.antt`, the front of
//! a set in `specs/Front.antt`, verdicts in `specs/Verdict.antt`; then graphs and what lists of
//! choices reach in them in `specs/Graph.antt`, the laws of graphs and of orders in
//! `specs/StepGraph.antt` and `specs/VectorOrder.antt`, and the answer over a graph in
//! `specs/Answer.antt`. `specs/laws/` has the proof of the four laws alone.
//! Callers cite `proofs/Agree.antt`, `proofs/Unique.antt`, `proofs/Reached.antt` and
//! `proofs/Room.antt`.
#![tactic(auto)]

mod chain;
mod front;
mod pair;
mod pairs;
mod pareto;
mod rank;
mod step_graph;
mod steps;
mod trade;
mod vector_order;
mod verdict;

pub use chain::ChainOrder;
pub use front::front_of;
pub use pair::PairOrder;
pub use pairs::{extended, finished, started};
pub use pareto::ParetoOrder;
pub use rank::RankOrder;
pub use step_graph::StepGraph;
pub use steps::Steps;
pub use vector_order::VectorOrder;
pub use verdict::{Verdict, compare, why_not};
