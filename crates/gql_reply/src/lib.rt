//! The text of answers (GraphQL specification, 7.1).
#![tactic(auto)]

mod errors;
mod reply;

pub use reply::reply_text;
