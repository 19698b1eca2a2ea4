//! Which operations are served, and the law that every request of one has a response.
#![tactic(auto)]

pub mod laws;
mod owned;
mod owner;

pub use owned::owned_faults;
pub use owner::Owners;
