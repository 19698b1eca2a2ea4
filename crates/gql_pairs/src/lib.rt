//! What clashes between two fragments, kept for all definitions that spread them (GraphQL
//! specification, 5.3.2).
#![tactic(auto)]

mod covering;
mod doubt;
mod gather;
mod group;
mod growing;
mod holds;
pub mod laws;
mod member;
mod members;
mod sweep;
mod table;

pub use doubt::Doubt;
pub use group::{Group, PairBad, clean_group, group_of};
pub use member::Member;
pub use members::members_of;
pub use table::PairTable;
