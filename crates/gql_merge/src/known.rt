//! What is known of a field.
ghost use Rattle.std.specs.Prelude.{◌≡◌, None, Some, IfOk, option_map};
ghost use Rattle.std.specs.Option.{option_copied};
ghost use Rattle.gql_facts.specs.Nodes as nodes;
ghost use Rattle.gql_merge.specs.FieldSets.{info_by, info_of, is_object as is_object_kind, known_info, written_field};
ghost use Rattle.gql_merge.specs.Known.{info_in};
ghost use Rattle.gql_rules.specs.Answers as answers;

use crate::parents::composite_by_kind;
use crate::shapes::shape_text;
use crate::texts::call_text;
use gql_ast::{Field, FileName, Text};
use gql_facts::{Fact, FieldFact, Key, World};
use gql_rules::kind_of;
use gql_types::TypeKind;
use std::alloc::{AllocError, Global};

/// A field whose definition is known.
#[derive(Drop)]
pub struct KnownField<'t> {
    pub file: &'t FileName,
    pub field: &'t Field,
    /// The type in whose selections it is.
    pub parent: Text,
    pub of_object: bool,
    /// Its name and arguments.
    pub call: Text,
    /// The shape of its type.
    pub shape: Text,
}

impl<'t> KnownField<'t> {
    /// A copy of the field.
    pub fn copy(&self) -> Result<KnownField<'t>, AllocError>
        ensures { IfOk result (λ f. f ≡ self.now) }
    {
        Ok(KnownField {
            file: self.file,
            field: self.field,
            parent: self.parent.copy()?,
            of_object: self.of_object,
            call: self.call.copy()?,
            shape: self.shape.copy()?,
        })
    }
}

/// What is known of a field, and the parent type of what it selects.
#[derive(Drop)]
pub struct SeenField<'t> {
    pub known: Option<KnownField<'t>>,
    pub below: Option<Text>,
}

/// The field that an answer gives.
fn field_in(fact: &Fact) -> Option<&FieldFact>
    ensures { option_copied result ≡ answers.field_in fact.now }
{
    match fact {
        Fact::Field(field) => Some(field.get()),
        _ => None,
    }
}

fn is_object(kind: Option<TypeKind>) -> bool
    ensures { result ≡ is_object_kind kind }
{
    match kind {
        Some(TypeKind::Object) => true,
        Some(TypeKind::Scalar) => false,
        Some(TypeKind::Enum) => false,
        Some(TypeKind::Interface) => false,
        Some(TypeKind::Union) => false,
        Some(TypeKind::InputObject) => false,
        None => false,
    }
}

/// A field of a type, by its definition and the kinds of that type and of its own type.
fn known_field<'t>(
    alloc: Global,
    file: &'t FileName,
    of_type: &Text,
    field: &'t Field,
    definition: &FieldFact,
    own: Option<TypeKind>,
    kind: Option<TypeKind>,
) -> Result<KnownField<'t>, AllocError>
    ensures { IfOk result (λ k. info_in k ≡ info_by file.now of_type.now
        (written_field field.now) definition.now own kind) }
{
    let parent = of_type.copy()?;
    let call = call_text(alloc, &field.name.text, field.arguments.as_slice())?;
    let shape = shape_text(alloc, &definition.of_type, kind)?;
    Ok(KnownField {
        file,
        field,
        parent,
        of_object: is_object(own),
        call,
        shape,
    })
}

/// A field of a type, by its definition.
fn see_known<'t, W: World>(
    alloc: Global,
    world: &mut W,
    file: &'t FileName,
    of_type: &Text,
    field: &'t Field,
    definition: &FieldFact,
) -> Result<SeenField<'t>, AllocError>
    ensures facts { W.facts world.new ≡ W.facts world.old }
    ensures names { W.names world.new ≡ W.names world.old }
    ensures lent { W.lent world.new ≡ W.lent world.old }
    ensures known { IfOk result (λ s. option_map info_in s.known ≡ Some (info_of
        (W.facts world.old) file.now of_type.now (written_field field.now) definition.now)) }
    ensures below { IfOk result (λ s. s.below ≡ answers.composite_by definition.now.of_type.name
        (answers.kind_of (W.facts world.old) definition.now.of_type.name)) }
{
    let own = kind_of(alloc, world, of_type)?;
    let kind = kind_of(alloc, world, &definition.of_type.name)?;
    let known = known_field(alloc, file, of_type, field, definition, own, kind)?;
    let below = composite_by_kind(&definition.of_type.name, kind)?;
    Ok(SeenField {
        known: Some(known),
        below,
    })
}

/// The answer for a field of a parent type; absent if that is not known.
fn ask_field<W: World>(
    alloc: Global,
    world: &mut W,
    parent: &Option<Text>,
    name: &Text,
) -> Result<Fact, AllocError>
    ensures facts { W.facts world.new ≡ W.facts world.old }
    ensures names { W.names world.new ≡ W.names world.old }
    ensures lent { W.lent world.new ≡ W.lent world.old }
    ensures answer { IfOk result (λ f. answers.field_in f
        ≡ answers.field_of (W.facts world.old) parent.now name.now) }
{
    let Some(parent) = parent else {
        return Ok(Fact::Absent);
    };
    let key = Key::FieldOf {
        of_type: parent.copy()?,
        field: name.copy()?,
    };
    world.fact(alloc, &key)
}

/// A field of a parent type.
pub fn see_field<'t, W: World>(
    alloc: Global,
    world: &mut W,
    file: &'t FileName,
    parent: &Option<Text>,
    field: &'t Field,
) -> Result<SeenField<'t>, AllocError>
    ensures facts { W.facts world.new ≡ W.facts world.old }
    ensures names { W.names world.new ≡ W.names world.old }
    ensures lent { W.lent world.new ≡ W.lent world.old }
    ensures known { IfOk result (λ s. option_map info_in s.known
        ≡ known_info (W.facts world.old) file.now parent.now (written_field field.now)) }
    ensures below { IfOk result (λ s. s.below
        ≡ nodes.parent_below (W.facts world.old) parent.now field.now.name.text) }
{
    let fact = ask_field(alloc, world, parent, &field.name.text)?;
    if let Some(of_type) = parent {
        if let Some(definition) = field_in(&fact) {
            let seen = see_known(alloc, world, file, of_type, field, definition)?;
            return Ok(seen);
        }
    }
    Ok(SeenField {
        known: None,
        below: None,
    })
}
