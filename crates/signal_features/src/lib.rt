//! Speed signs and lights: what of them a document has, and the features that rules measure by
//! them.
//!
//! The layer above uses that `read_signals` gives the signals of the document
//! (`specs/Signals.antt`, whose forms stand in `specs/Forms.antt`), and that `SignalSource` knows
//! exactly the features of `specs/Features.antt`, which are those of its scene and those of its
//! signals.
#![tactic(auto)]

mod fault;
mod feature;
mod form;
mod found;
mod light;
mod limits;
mod lookup;
mod measuring;
mod read;
mod signals;
mod source;
mod uses;

pub use fault::{SignalFault, SignalKind};
pub use feature::SignalFeature;
pub use limits::{MAX_LIGHTS, MAX_PHASE_TICKS, MAX_PHASES, MAX_SIGNS, MAX_WAIT};
pub use read::read_signals;
pub use signals::{Light, Phase, SignalUse, Signals, SpeedSign};
pub use source::SignalSource;
