//! The faults of names over all document files (GraphQL specification, 5), and verdicts: the faults
//! of a definition with all that they depend on.
//!
//! A function that adds to a list may have added a part of it if an allocation fails.
#![tactic(auto)]

mod asked;
mod definitions;
mod indexing;
pub mod laws;
mod marks;
mod meter;
mod names;
mod naming;
mod new_names;
mod plan;
mod same_names;
mod schema_edit;
mod shared_work;
mod sharing;
mod shelf;
mod slot;
mod spreads;
mod touched;
mod v01_executable_definitions;
mod v02_operation_name_uniqueness;
mod v03_lone_anonymous_operation;
mod v11_fragment_name_uniqueness;
mod v14_fragments_must_be_used;
mod v30_single_root_field;
mod verdict;

pub use meter::Meter;
pub use names::name_faults;
pub use new_names::{NameSet, brings_new_names};
pub use same_names::keeps_names;
pub use shared_work::SharedWork;
pub use sharing::shared_faults;
pub use shelf::{Prepared, Shelf};
pub use touched::Touched;
pub use verdict::{Verdict, examine};
