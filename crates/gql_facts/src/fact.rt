//! The answers to the questions that rules ask.
ghost use Rattle.std.specs.Prelude.{◌≡◌, ◌↔◌, IsTrue, IfOk};
ghost use Rattle.gql_types.specs.RequiredInputs as required;
ghost use Rattle.gql_types.specs.WrittenTypes.{typed_of};

use gql_ast::{DirectiveLocation, FileName, Fragment, Items, Same, Shared, Text, same_items};
use gql_types::{DefinedInput, DefinedInputs, HasName, Named, TypeKind, WrittenType};
use std::alloc::AllocError;

/// An argument or an input field (GraphQL specification, 3.6.1, 3.10).
pub struct InputFact {
    pub name: Text,
    pub of_type: WrittenType,
    pub has_default: bool,
}

impl Drop for InputFact {
    fn drop(self) {
        let InputFact {
            name: _,
            of_type: _,
            has_default: _,
        } = self;
    }
}

impl HasName for InputFact {
    ghost name = { λ input. input.name };

    fn name(&self) -> &str {
        self.name.as_str()
    }
}

impl DefinedInput for InputFact {
    ghost is_required = { λ input.
        required.is_required (typed_of input.of_type) input.has_default };

    fn is_required(&self) -> bool {
        self.of_type.is_non_null() && !self.has_default
    }
}

/// A field of an object or an interface (3.6, 3.7).
pub struct FieldFact {
    pub of_type: WrittenType,
    pub arguments: DefinedInputs<InputFact>,
}

impl Drop for FieldFact {
    fn drop(self) {
        let FieldFact {
            of_type: _,
            arguments: _,
        } = self;
    }
}

/// A directive (3.13).
pub struct DirectiveFact {
    pub locations: Items<DirectiveLocation>,
    pub is_repeatable: bool,
    pub arguments: DefinedInputs<InputFact>,
}

impl Drop for DirectiveFact {
    fn drop(self) {
        let DirectiveFact {
            locations: _,
            is_repeatable: _,
            arguments: _,
        } = self;
    }
}

/// A fragment, as it is written in its file (2.8).
pub struct FragmentFact {
    pub file: FileName,
    pub fragment: Shared<Fragment>,
}

impl Drop for FragmentFact {
    fn drop(self) {
        let FragmentFact {
            file: _,
            fragment: _,
        } = self;
    }
}

/// The answer to a key. A copy shares what the fact holds.
pub enum Fact {
    /// Nothing has that name, or what has it is of another kind.
    Absent,
    Kind(TypeKind),
    Field(Shared<FieldFact>),
    /// The names of the objects, each once, in the order of their bytes.
    Possible(Shared<Named<Text>>),
    /// The fields of an input object, in their order.
    Input(Shared<DefinedInputs<InputFact>>),
    /// The names of the values of an enum, in their order.
    Enum(Shared<Named<Text>>),
    Directive(Shared<DirectiveFact>),
    /// The name of a root operation type.
    Root(Shared<Text>),
    Fragment(FragmentFact),
}

impl Drop for Fact {
    fn drop(self) {
        match self {
            Fact::Absent => {}
            Fact::Kind(_) => {}
            Fact::Field(_) => {}
            Fact::Possible(_) => {}
            Fact::Input(_) => {}
            Fact::Enum(_) => {}
            Fact::Directive(_) => {}
            Fact::Root(_) => {}
            Fact::Fragment(_) => {}
        }
    }
}

impl FragmentFact {
    /// An equal fragment, which shares the tree.
    pub fn copy(&self) -> Result<FragmentFact, AllocError>
        ensures { IfOk result (λ f. f ≡ self.now) }
    {
        Ok(FragmentFact {
            file: self.file.copy()?,
            fragment: self.fragment.clone()?,
        })
    }
}

impl Fact {
    /// An equal fact, which shares what this one holds.
    pub fn copy(&self) -> Result<Fact, AllocError>
        ensures { IfOk result (λ f. f ≡ self.now) }
    {
        Ok(match self {
            Fact::Absent => Fact::Absent,
            Fact::Kind(kind) => Fact::Kind(*kind),
            Fact::Field(field) => Fact::Field(field.clone()?),
            Fact::Possible(names) => Fact::Possible(names.clone()?),
            Fact::Input(fields) => Fact::Input(fields.clone()?),
            Fact::Enum(values) => Fact::Enum(values.clone()?),
            Fact::Directive(directive) => Fact::Directive(directive.clone()?),
            Fact::Root(name) => Fact::Root(name.clone()?),
            Fact::Fragment(fragment) => Fact::Fragment(fragment.copy()?),
        })
    }
}

impl Same for InputFact {
    fn same(&self, other: &InputFact) -> bool {
        self.name.same(&other.name)
            && self.of_type.same(&other.of_type)
            && self.has_default == other.has_default
    }
}

impl Same for FieldFact {
    fn same(&self, other: &FieldFact) -> bool {
        self.of_type.same(&other.of_type)
            && same_items(self.arguments.as_slice(), other.arguments.as_slice())
    }
}

impl Same for DirectiveFact {
    fn same(&self, other: &DirectiveFact) -> bool {
        self.is_repeatable == other.is_repeatable
            && same_items(self.locations.as_slice(), other.locations.as_slice())
            && same_items(self.arguments.as_slice(), other.arguments.as_slice())
    }
}

impl Same for FragmentFact {
    fn same(&self, other: &FragmentFact) -> bool {
        self.file.same(&other.file) && self.fragment.same(&other.fragment)
    }
}

fn same_names(names: &Named<Text>, others: &Named<Text>) -> bool
    ensures { IsTrue result ↔ (names.now ≡ others.now) }
{
    same_items(names.as_slice(), others.as_slice())
}

impl Same for Fact {
    fn same(&self, other: &Fact) -> bool {
        match self {
            Fact::Absent => match other {
                Fact::Absent => true,
                _ => false,
            },
            Fact::Kind(its) => match other {
                Fact::Kind(theirs) => *its == *theirs,
                _ => false,
            },
            Fact::Field(its) => match other {
                Fact::Field(theirs) => its.same(theirs),
                _ => false,
            },
            Fact::Possible(its) => match other {
                Fact::Possible(theirs) => same_names(its.get(), theirs.get()),
                _ => false,
            },
            Fact::Input(its) => match other {
                Fact::Input(theirs) => same_items(its.get().as_slice(), theirs.get().as_slice()),
                _ => false,
            },
            Fact::Enum(its) => match other {
                Fact::Enum(theirs) => same_names(its.get(), theirs.get()),
                _ => false,
            },
            Fact::Directive(its) => match other {
                Fact::Directive(theirs) => its.same(theirs),
                _ => false,
            },
            Fact::Root(its) => match other {
                Fact::Root(theirs) => its.same(theirs),
                _ => false,
            },
            Fact::Fragment(its) => match other {
                Fact::Fragment(theirs) => its.same(theirs),
                _ => false,
            },
        }
    }
}
