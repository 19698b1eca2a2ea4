//! Definitions of a schema without a part.
ghost use Rattle.std.specs.Prelude.{◌≡◌, IfOk, None, Some, if◌then◌else◌};
ghost use Rattle.gql_ast.specs.declared.definition.Tree.TheVariants as tree;
ghost use Rattle.gql_cut.specs.Cuts as spec;

use crate::copies::{description_copy, directive_copies, location_copies};
use crate::members::{inputs_but, parts_but, parts_without};
use gql_ast::{
    DirectiveDefinition, InputValueDefinition, Items, Shared, Text, Tree, TypeDefinition,
    TypeExtension, TypeParts,
};
use gql_removal::Subject;
use std::alloc::{AllocError, Global};

/// A definition of a type with these parts in place of its own.
fn type_with(
    alloc: Global,
    definition: &TypeDefinition,
    parts: TypeParts,
) -> Result<Tree, AllocError>
    ensures { IfOk result (λ made. made ≡ tree.Type (record definition.now { parts = parts })) }
{
    let description = description_copy(&definition.description)?;
    let name = definition.name.copy()?;
    let directives = directive_copies(alloc, definition.directives.as_slice())?;
    let made = TypeDefinition {
        place: definition.place,
        description,
        name,
        directives,
        parts,
    };
    Ok(Tree::Type(Shared::new(alloc, made)?))
}

/// An extension of a type with these parts in place of its own.
fn extension_with(
    alloc: Global,
    extension: &TypeExtension,
    parts: TypeParts,
) -> Result<Tree, AllocError>
    ensures { IfOk result (λ made.
        made ≡ tree.TypeExtension (record extension.now { parts = parts })) }
{
    let name = extension.name.copy()?;
    let directives = directive_copies(alloc, extension.directives.as_slice())?;
    let made = TypeExtension {
        place: extension.place,
        name,
        directives,
        parts,
    };
    Ok(Tree::TypeExtension(Shared::new(alloc, made)?))
}

/// A definition of a directive with these arguments in place of its own.
fn directive_with(
    alloc: Global,
    directive: &DirectiveDefinition,
    arguments: Items<Shared<InputValueDefinition>>,
) -> Result<Tree, AllocError>
    ensures { IfOk result (λ made.
        made ≡ tree.Directive (record directive.now { arguments = arguments })) }
{
    let description = description_copy(&directive.description)?;
    let name = directive.name.copy()?;
    let locations = location_copies(alloc, directive.locations.as_slice())?;
    let made = DirectiveDefinition {
        place: directive.place,
        description,
        name,
        arguments,
        is_repeatable: directive.is_repeatable,
        locations,
    };
    Ok(Tree::Directive(Shared::new(alloc, made)?))
}

/// Whether this defines or extends the type of this name.
fn is_of_type(name: &Text, of: &Tree) -> bool
    ensures { result ≡ spec.is_of_type name.now of.now }
{
    match of {
        Tree::Type(definition) => name.as_str() == definition.get().name.as_str(),
        Tree::TypeExtension(extension) => name.as_str() == extension.get().name.as_str(),
        _ => false,
    }
}

/// Whether this defines the directive of this name.
fn is_of_directive(name: &Text, of: &Tree) -> bool
    ensures { result ≡ spec.is_of_directive name.now of.now }
{
    match of {
        Tree::Directive(directive) => name.as_str() == directive.get().name.as_str(),
        _ => false,
    }
}

/// A definition or an extension, without its member of this name if it is of that type.
fn without_member(alloc: Global, of_type: &Text, name: &Text, of: &Tree) -> Result<Tree, AllocError>
    ensures { IfOk result (λ left.
        left ≡ spec.with_parts of_type.now (spec.parts_but name.now) of.now) }
{
    if !is_of_type(of_type, of) {
        return of.copy();
    }
    match of {
        Tree::Type(definition) => {
            let definition = definition.get();
            let parts = parts_but(alloc, name, &definition.parts)?;
            type_with(alloc, definition, parts)
        }
        Tree::TypeExtension(extension) => {
            let extension = extension.get();
            let parts = parts_but(alloc, name, &extension.parts)?;
            extension_with(alloc, extension, parts)
        }
        _ => of.copy(),
    }
}

/// A definition or an extension, without the argument of this name of that field if it is of that type.
fn without_argument(
    alloc: Global,
    of_type: &Text,
    field: &Text,
    name: &Text,
    of: &Tree,
) -> Result<Tree, AllocError>
    ensures { IfOk result (λ left.
        left ≡ spec.with_parts of_type.now (spec.parts_without field.now name.now) of.now) }
{
    if !is_of_type(of_type, of) {
        return of.copy();
    }
    match of {
        Tree::Type(definition) => {
            let definition = definition.get();
            let parts = parts_without(alloc, field, name, &definition.parts)?;
            type_with(alloc, definition, parts)
        }
        Tree::TypeExtension(extension) => {
            let extension = extension.get();
            let parts = parts_without(alloc, field, name, &extension.parts)?;
            extension_with(alloc, extension, parts)
        }
        _ => of.copy(),
    }
}

/// A definition, without its argument of this name if it is of that directive.
fn without_directive_argument(
    alloc: Global,
    directive: &Text,
    name: &Text,
    of: &Tree,
) -> Result<Tree, AllocError>
    ensures { IfOk result (λ left.
        left ≡ spec.with_arguments_but directive.now name.now of.now) }
{
    match of {
        Tree::Directive(definition) => {
            let definition = definition.get();
            if directive.as_str() != definition.name.as_str() {
                return of.copy();
            }
            let arguments = inputs_but(alloc, name, definition.arguments.as_slice())?;
            directive_with(alloc, definition, arguments)
        }
        _ => of.copy(),
    }
}

/// A definition, if it is to stay.
fn if_kept(goes: bool, of: &Tree) -> Result<Option<Tree>, AllocError>
    ensures { IfOk result (λ left. left ≡ (if goes then None else Some of.now)) }
{
    if goes {
        return Ok(None);
    }
    Ok(Some(of.copy()?))
}

/// What is left of a definition without a part.
pub fn tree_left(alloc: Global, subject: &Subject, of: &Tree) -> Result<Option<Tree>, AllocError>
    ensures { IfOk result (λ left. left ≡ spec.tree_left subject.now of.now) }
{
    match subject {
        Subject::Type(name) => if_kept(is_of_type(name, of), of),
        Subject::Member { of_type, name } => { Ok(Some(without_member(alloc, of_type, name, of)?)) }
        Subject::Argument {
            of_type,
            field,
            name,
        } => Ok(Some(without_argument(alloc, of_type, field, name, of)?)),
        Subject::Directive(name) => if_kept(is_of_directive(name, of), of),
        Subject::DirectiveArgument { directive, name } => {
            Ok(Some(without_directive_argument(alloc, directive, name, of)?))
        }
    }
}
