//! The data that operations are executed on, and what mutations add to them. To add a value takes
//! two steps: `prepare` makes room, which may fail, and `commit` takes no memory.
#![tactic(auto)]

mod additions;
mod change;
mod counts;
mod effect;
mod items;
pub mod laws;
mod lists;
mod rooms;
mod stored_data;

pub use additions::Additions;
pub use effect::Effect;
pub use lists::has_list;
pub use stored_data::StoredData;
