//! Syntax trees of GraphQL documents, with the place of every node that a fault can name.
//!
//! Contracts see a tree as plain data: two trees are equal exactly if they are the same tree
//! with the same places.
//!
//! A type that is not recursive has its `Drop` written out. A derived one would be proved again in
//! each crate above.
#![tactic(auto)]

mod definition;
mod executable;
mod fault;
mod file_name;
mod files;
mod literal;
mod print;
mod profile;
mod rule;
mod same;
mod shared;
mod text;
mod text_order;
mod type_ref;
mod type_system;

pub use definition::{Definition, DefinitionId, Document, Tree};
pub use executable::{
    Field, Fragment, InlineFragment, Operation, OperationKind, Selection, Spread,
    VariableDefinition,
};
pub use fault::{Fault, FilePlace, FileSide};
pub use file_name::FileName;
pub use files::{FileMap, Files};
pub use literal::{Argument, Directive, Literal, ObjectField};
pub use print::print_literal;
pub use profile::{Limits, Profile};
pub use rule::Rule;
pub use same::{Same, same_items, same_option};
pub use shared::Shared;
pub use sqlite_items::{Boxed, Items};
pub use text::{Name, Text};
pub use type_ref::TypeRef;
pub use type_system::{
    DirectiveDefinition, DirectiveLocation, EnumValueDefinition, FieldDefinition,
    InputValueDefinition, RootOperation, SchemaDefinition, SchemaExtension, TypeDefinition,
    TypeExtension, TypeParts,
};
