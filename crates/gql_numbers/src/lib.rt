//! Doubles: the number of a text, and the text of a number, with the fewest digits that are read back.
#![tactic(auto)]

mod digits;
mod exact;
pub mod laws;
mod parts;
mod reading;
mod rounding;
mod shortest;
#[cfg(test)]
mod tests;
mod writing;

pub use reading::read_double;
pub use shortest::write_double;
