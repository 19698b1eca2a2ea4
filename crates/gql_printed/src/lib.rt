//! Laws of the text of a literal: contracts of functions that do nothing.
#![tactic(auto)]

pub mod laws;
