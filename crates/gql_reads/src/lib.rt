//! What was observed of a world: the keys that a definition reads, with the answers to them. What
//! was observed of a fragment alone is kept once, and shared by all that reach the fragment. What an
//! answer leads to is kept with the answer, and shared by all that read its key.
#![tactic(auto)]

mod asking;
mod holds;
pub mod laws;
mod leading;
mod observation;
mod observing;
mod part;
mod reading;
mod record;
mod retest;
mod scan;
mod table;

pub use holds::{answer_holds, answers_hold};
pub use observation::{Answer, Observation, TypeAnswers};
pub use observing::{observes, one_observes};
pub use part::Part;
pub use reading::{OwnReads, Reading, reads_of};
pub use record::Record;
pub use retest::{KeptParts, NoParts};
pub use table::ReadTable;
