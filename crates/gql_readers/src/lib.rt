//! An index from keys to the definitions that read them.
#![tactic(auto)]

mod changes;
mod differences;
mod entries;
mod ids;
mod index;
mod orders;
mod prints;
mod reader_list;

pub use changes::Changes;
pub use entries::Entry;
pub use index::Index;
pub use reader_list::ReaderList;
