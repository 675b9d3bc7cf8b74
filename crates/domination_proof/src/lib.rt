//! Certificates of what a search found.
//!
//! The layer above uses that `certificate_of` gives the same numbers, and the laws: what a search
//! found is a good certificate, whose answers are the answer over the graph, which a check accepts,
//! and which has a text within the limits. `answers_found` gives these answers without a check. The type, its text and its limits are those of
//! `certificate_text`; when a certificate is good stands in `certificate_checker`, below which
//! there is no search.
//! The definitions stand in `specs/Copies.antt` and `specs/Shown.antt`.
#![tactic(auto)]

mod answering;
mod laws;
mod making;

pub use answering::answers_found;
pub use certificate_text::{
    CertFault, CertLabel, Certificate, MAX_LABELS, MAX_LINKS, read_certificate, write_certificate,
};
pub use laws::{
    MAX_CHOICES, MAX_TEXT, found_has_a_text, found_is_accepted, found_is_good, one_certificate,
};
pub use making::certificate_of;
