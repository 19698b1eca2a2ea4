//! V30, Single Root Field: the rule on the root fields of a subscription (GraphQL specification,
//! 5.2.3.1), over what a world answers.
//!
//! A function that adds to a list may have added a part of it if an allocation fails.
#![tactic(auto)]

mod conditions;
mod fault;
mod faults;
pub mod laws;
mod selections;
mod v30_single_root_field;
mod walk;

pub use fault::RootFault;
pub use v30_single_root_field::single_root_faults;
