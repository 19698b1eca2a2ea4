//! Which rules of this crate find nothing, and what they check.

use gql_ast::Fault;
use gql_types::{Batched, SchemaType};

/// Which rules find nothing in a schema, and whether the rules on interfaces ask about names that
/// have types. An edit keeps that for what it leaves as it is.
#[derive(Clone, Copy)]
pub struct Quiet {
    /// No type is at fault by S09 to S15.
    pub interfaces: bool,
    /// S09 to S15 ask about no name without a type.
    pub names: bool,
    /// No input object leads back to itself (S17).
    pub inputs: bool,
    /// No default value of an input field holds an object (S19).
    pub defaults: bool,
    /// No directive leads to a directive, or to a type that leads on (S26).
    pub directives: bool,
}

/// The faults of a schema by the rules of this crate, and which of them find nothing.
#[derive(Drop)]
pub struct Found {
    pub faults: Vec<Fault>,
    pub quiet: Quiet,
}

/// The types that are checked: all, or those that may be at fault.
#[derive(Clone, Copy)]
pub struct Checked<'t> {
    /// By S09 to S15.
    pub interfaces: &'t [Batched<SchemaType>],
    /// Whether S09 to S15 ask about no name without a type, of the types that are not among these.
    pub others_known: bool,
    /// Whether no input object can lead back to itself, so that S17 finds nothing.
    pub skips_inputs: bool,
    /// By S19, whether they need it.
    pub defaults: &'t [Batched<SchemaType>],
    /// By S26, whether they lead on.
    pub directives: &'t [Batched<SchemaType>],
}
