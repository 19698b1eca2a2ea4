//! What a check of a folder finds: the faults, with the texts that they are in, and the operations
//! that are not served. Two checks are compared, and faults of one cause are put together.
#![tactic(auto)]

mod comparison;
mod finding;
mod grouping;
mod hiding;
mod lines;
mod marks;
mod pairing;
mod served;
mod source;
mod tokens;
mod words;

pub use comparison::{Comparison, compare, is_of_schema};
pub use finding::{Affected, Finding, Findings, OperationAt, Owner, OwnerAt, Spot, SystemKind};
pub use gql_ast::{OperationKind, Rule, Text};
pub use grouping::{Cause, causes};
pub use marks::{Key, fault_key, label_at, line_at, path_at};
pub use source::Source;
pub use words::{sentence, title};
