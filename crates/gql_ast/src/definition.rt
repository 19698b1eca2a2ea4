//! Definitions, and the documents that hold them.

ghost use Rattle.std.specs.Prelude.{◌≡◌, IfOk};
ghost use Rattle.gql_ast.specs.Trees.{place_of, id_of};

use crate::executable::{Fragment, Operation};
use crate::file_name::FileName;
use crate::shared::Shared;
use crate::type_system::{
    DirectiveDefinition, SchemaDefinition, SchemaExtension, TypeDefinition, TypeExtension,
};
use gql_text::Place;
use sqlite_items::Items;
use std::alloc::{AllocError, Global};

/// The forms of a definition (GraphQL specification, 2.2). Each shares its tree, so that a copy
/// costs no walk.
pub enum Tree {
    Operation(Shared<Operation>),
    Fragment(Shared<Fragment>),
    Schema(Shared<SchemaDefinition>),
    Type(Shared<TypeDefinition>),
    Directive(Shared<DirectiveDefinition>),
    SchemaExtension(Shared<SchemaExtension>),
    TypeExtension(Shared<TypeExtension>),
}

impl Drop for Tree {
    fn drop(self) {
        match self {
            Tree::Operation(_) => {}
            Tree::Fragment(_) => {}
            Tree::Schema(_) => {}
            Tree::Type(_) => {}
            Tree::Directive(_) => {}
            Tree::SchemaExtension(_) => {}
            Tree::TypeExtension(_) => {}
        }
    }
}

impl Tree {
    /// Where the definition starts: the place of its first token.
    pub fn place(&self) -> Place
        ensures { result ≡ place_of self.now }
    {
        match self {
            Tree::Operation(operation) => operation.get().place,
            Tree::Fragment(fragment) => fragment.get().place,
            Tree::Schema(definition) => definition.get().place,
            Tree::Type(definition) => definition.get().place,
            Tree::Directive(definition) => definition.get().place,
            Tree::SchemaExtension(extension) => extension.get().place,
            Tree::TypeExtension(extension) => extension.get().place,
        }
    }

    /// An equal tree, which shares what it holds.
    pub fn copy(&self) -> Result<Tree, AllocError>
        ensures { IfOk result (λ t. t ≡ self.now) }
    {
        Ok(match self {
            Tree::Operation(operation) => Tree::Operation(operation.clone()?),
            Tree::Fragment(fragment) => Tree::Fragment(fragment.clone()?),
            Tree::Schema(definition) => Tree::Schema(definition.clone()?),
            Tree::Type(definition) => Tree::Type(definition.clone()?),
            Tree::Directive(definition) => Tree::Directive(definition.clone()?),
            Tree::SchemaExtension(extension) => Tree::SchemaExtension(extension.clone()?),
            Tree::TypeExtension(extension) => Tree::TypeExtension(extension.clone()?),
        })
    }
}

/// A definition and the file that it is in.
pub struct Definition {
    pub file: FileName,
    pub tree: Tree,
}

impl Drop for Definition {
    fn drop(self) {
        let Definition { file: _, tree: _ } = self;
    }
}

/// What identifies a definition: its file, and the offset of its first token there.
#[derive(Drop)]
pub struct DefinitionId {
    pub file: FileName,
    pub offset: usize,
}

impl Definition {
    /// An equal definition, which shares the tree.
    pub fn copy(&self) -> Result<Definition, AllocError>
        ensures { IfOk result (λ d. d ≡ self.now) }
    {
        Ok(Definition {
            file: self.file.copy()?,
            tree: self.tree.copy()?,
        })
    }

    /// What identifies the definition.
    pub fn id(&self) -> Result<DefinitionId, AllocError>
        ensures { IfOk result (λ id. id ≡ id_of self.now) }
    {
        Ok(DefinitionId {
            file: self.file.copy()?,
            offset: self.tree.place().offset,
        })
    }
}

/// The definitions of a file, in their order (GraphQL specification, 2.2).
pub struct Document {
    pub definitions: Items<Definition>,
}

impl Drop for Document {
    fn drop(self) {
        let Document { definitions: _ } = self;
    }
}
