//! The registry: schema files, document files and data in, faults out, a verdict on each definition
//! of the document files, and calls of stored operations.
#![tactic(auto)]

mod calling;
mod change;
mod data;
mod edit_plan;
mod editing;
mod facts;
mod index;
mod integers;
mod kept;
mod kept_operation;
pub mod laws;
mod loading;
mod operation_order;
mod operations;
mod planning;
mod present;
mod reading;
mod refusal;
mod registry;
mod report;
mod runs;
mod sides;

pub use change::{Change, EditRefusal};
pub use editing::PreparedEdit;
pub use facts::FilesFacts;
pub use refusal::{Refusal, syntax_message};
pub use registry::{Edited, Registry};
pub use runs::{Prepared, Reply};
