//! Who reads a part of a schema: the stored operations and fragments that its removal breaks. And which
//! parts nobody reads.
#![tactic(auto)]

mod answered;
mod breaks;
mod json_usage;
mod label;
mod reader;
mod same_faults;
mod stored;
mod text_usage;
mod unread;
mod untouched;
mod usage;

pub use answered::{Answered, answered_objects, is_answered};
pub use json_usage::{unread_as_json, usage_as_json};
pub use label::Paths;
pub use reader::{Reader, readers_of};
pub use stored::Stored;
pub use text_usage::{unread_as_text, usage_as_text};
pub use unread::{Unread, UnreadPart, unread_parts};
pub use usage::Usage;
