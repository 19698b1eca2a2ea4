//! Parts of a schema, by their coordinates, as `Query.orders(sort:)`; and what is left of the answers of a
//! world once a part is removed.
#![tactic(auto)]

mod asked;
mod left;
mod named;
mod removal;
mod spared;
mod subject;
mod without;

pub use asked::{Asked, Part, field_removal, removal_of};
pub use left::left_of;
pub use removal::Removal;
pub use spared::{is_spared, is_type_spared};
pub use subject::{Subject, read_subject};
pub use without::Without;
