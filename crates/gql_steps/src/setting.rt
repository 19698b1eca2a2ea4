//! What fields are executed with.

use gql_collect::Context;
use gql_intro::IntroSchema;

/// What fields are executed with.
#[derive(Clone, Copy)]
pub struct Setting<'d, 'v> {
    pub context: Context<'d, 'v>,
    /// What introspection makes once of the schema.
    pub made: &'d IntroSchema,
}
