//! Lists in order, in chunks. The lists before and after an edit share the chunks that it does not
//! touch.
#![tactic(auto)]

mod chunk;
mod chunks;
mod edits;
mod items;
mod order;
mod search;

pub use chunks::Chunks;
pub use items::Items;
pub use order::{HasOrder, Probe};
