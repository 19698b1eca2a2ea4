//! A check of a folder in the formats that people and build servers read. All texts are UTF-8; each
//! function fails only if an allocation does. The time is linear in what is written, but for
//! annotations, which look at each broken operation for each fault.
#![tactic(auto)]

mod annotation;
pub mod caret;
mod changed;
pub mod check;
pub mod escapes;
mod fingerprint;
mod github;
mod json_entries;
mod json_report;
pub mod json_write;
pub mod phrases;
pub mod picking;
mod sarif;
mod telling;
mod text;
pub mod write;

pub use check::{Against, Check};
pub use github::as_github;
pub use json_report::as_json;
pub use sarif::as_sarif;
pub use text::as_text;
