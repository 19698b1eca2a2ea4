//! Who reads a part of the schema of a folder, which faults its removal brings, and which parts nobody
//! reads: answers as text or JSON for the files of a folder. Registries stay inside this crate.
#![tactic(auto)]

mod answer;
mod brought;
mod fault;
mod loaded;
mod words;

pub use answer::{AnswerFormat, readers_in, unread_in};
pub use fault::UsageFault;
