//! The objects that an answer may hold since an interface or a union of them is asked for.
ghost use Rattle.std.specs.Prelude.{◌≡◌, [], IfOk, OnOk};
ghost use Rattle.gql_usage.specs.Answering.{HasMore};
ghost use Rattle.gql_types.specs.declared.schema.Schema.{Schema as ASchema};
ghost use Rattle.gql_usage.specs.Answered as spec;

use gql_ast::Text;
use gql_facts::Key;
use gql_types::{Schema, SchemaType, TypeKind};
use gql_verdict::Shelf;
use indexmap::IndexSet;
use std::alloc::{AllocError, Global};
use std::marker::Model;

/// Names of objects, each once. Contracts see the list of them.
pub struct Answered {
    names: IndexSet<Text>,
}

impl Drop for Answered {
    fn drop(self) {
        let Answered { names: _ } = self;
    }
}

impl Model for Answered {
    ghost use Rattle.std.specs.Coded.{codes};
    ghost use Rattle.std.specs.Prelude.{List, ℕ};

    ghost Value = { List (List ℕ) };

    ghost coded = { Prim.hlevel codes };

    ghost view = { λ a. a.names.keys };
}

impl Answered {
    ghost use Rattle.std.specs.Prelude.{◌≡◌, ◌∷◌, [], OnOk, bytes_eq};
    ghost use Rattle.std.specs.List.{list_any};
    ghost use Rattle.gql_usage.specs.Answering.{HasMore};

    /// No names.
    fn new(alloc: Global) -> Answered
        ensures { result ≡ [] }
    {
        Answered {
            names: IndexSet::new(alloc),
        }
    }

    /// Whether this name is among them.
    pub fn has(&self, name: &Text) -> bool
        ensures { result ≡ list_any (bytes_eq name.now) self.now }
    {
        self.names.contains(name)
    }

    /// Adds a name.
    fn add(&mut self, name: &Text) -> Result<(), AllocError>
        ensures { OnOk result (HasMore self.old (name.now ∷ []) self.new) }
    {
        self.names.insert(name.copy()?)?;
        Ok(())
    }

    /// Adds names.
    fn add_all(&mut self, names: &[Text]) -> Result<(), AllocError>
        ensures { OnOk result (HasMore self.old names.now self.new) }
    {
        for name in names {
            self.add(name)?;
        }
        Ok(())
    }
}

/// Whether a value of a type of this kind is an object of another type.
fn is_abstract(kind: TypeKind) -> bool
    ensures { result ≡ spec.is_abstract kind }
{
    match kind {
        TypeKind::Interface | TypeKind::Union => true,
        TypeKind::Scalar | TypeKind::Object | TypeKind::Enum | TypeKind::InputObject => false,
    }
}

/// Whether no definition asks for the answer to this key.
fn is_unasked(shelf: &Shelf, key: &Key) -> bool
    ensures { result ≡ spec.is_unasked shelf.now.verdicts key.now }
{
    !shelf.has_reader(key)
}

/// Whether this is an interface or a union that a definition asks for.
fn is_abstract_asked(shelf: &Shelf, of_type: &SchemaType) -> Result<bool, AllocError>
    ensures { IfOk result (λ r. r ≡ spec.is_abstract_asked shelf.now.verdicts of_type.now) }
{
    if !is_abstract(of_type.kind) {
        return Ok(false);
    }
    let name = &of_type.definition.node.get().name;
    Ok(!is_unasked(shelf, &Key::KindOf(name.text.copy()?)))
}

/// Adds the objects that an answer may hold as values of this type.
fn add_answered(
    schema: &Schema,
    shelf: &Shelf,
    of_type: &SchemaType,
    answered: &mut Answered,
) -> Result<(), AllocError>
    ensures { OnOk result (HasMore answered.old
        (spec.answered_by schema.now shelf.now.verdicts of_type.now)
        answered.new) }
{
    if !is_abstract_asked(shelf, of_type)? {
        return Ok(());
    }
    match schema.possible(of_type.definition.node.get().name.as_str()) {
        Some(possible) => answered.add_all(possible),
        None => Ok(()),
    }
}

/// The objects that an answer may hold since an interface or a union of them is asked for.
pub fn answered_objects(
    alloc: Global,
    schema: &Schema,
    shelf: &Shelf,
) -> Result<Answered, AllocError>
    ensures { IfOk result (HasMore [] (spec.answered schema.now shelf.now.verdicts)) }
{
    let mut answered = Answered::new(alloc);
    for of_type in schema.types() {
        add_answered(schema, shelf, of_type.get(), &mut answered)?;
    }
    Ok(answered)
}

/// Whether operations may get or send values of the type of this name and need not name it: objects of
/// it as values of an interface or a union, or a type that what they ask for leads to, as that of a field
/// of an input object.
pub fn is_answered(shelf: &Shelf, answered: &Answered, name: &Text) -> Result<bool, AllocError>
    ensures { IfOk result (λ r. (schema : ASchema)
        → HasMore [] (spec.answered schema shelf.now.verdicts) answered.now
        → r ≡ spec.is_answered schema shelf.now.verdicts name.now) }
{
    if answered.has(name) {
        return Ok(true);
    }
    Ok(!is_unasked(shelf, &Key::KindOf(name.copy()?)))
}
