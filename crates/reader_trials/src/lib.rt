//! The readers of bytes, run on tables of texts: lines and numbers, decimals, markup, scenarios and
//! certificates.
//!
//! It has tests alone, over what these crates export.
#![tactic(auto)]

#[cfg(test)]
mod certificate_text_tests;
#[cfg(test)]
mod element_tree_tests;
#[cfg(test)]
mod fixed_decimal_tests;
#[cfg(test)]
mod reading_tests;
#[cfg(test)]
mod scenario_xml_tests;
#[cfg(test)]
mod text_lines_tests;
