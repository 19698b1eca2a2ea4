//! The types that an answer leads to, and what a world answers about them.
ghost use Rattle.std.specs.Prelude.{◌≡◌, ◌++◌, ◌∷◌, [], ℕ, IfOk, IsTrue, List, None, OnOk, Some, bytes_eq, slice_get};
ghost use Rattle.indexmap.specs.IndexMap.{get};
ghost use Rattle.gql_facts.specs.Members.{Lists};
ghost use Rattle.gql_facts.specs.Reads.{input_types, types_in};
ghost use Rattle.gql_facts.specs.declared.key.Key.TheVariants as key;
ghost use Rattle.gql_reads.specs.Closings.{add_names};
ghost use Rattle.gql_reads.specs.Leading.{AreTypes, LeadsTo, names_in};
ghost use Rattle.gql_reads.specs.Observations.{Hold, about, about_all};
ghost use Rattle.gql_reads.specs.declared.observation.TypeAnswers.{TypeAnswers as AType};

use crate::observation::TypeAnswers;
use gql_ast::{Same, Shared, Text};
use gql_facts::{Fact, InputFact, Key, World};
use indexmap::{IndexMap, IndexSet};
use std::alloc::{AllocError, Global};

/// Adds the names of the types of input values, unless they are there.
fn add_inputs(inputs: &[InputFact], names: &mut IndexSet<Text>) -> Result<(), AllocError>
    ensures { OnOk result (names.new.keys ≡ add_names names.old.keys (input_types inputs.now)) }
{
    for input in inputs {
        names.insert(input.of_type.name.copy()?)?;
    }
    Ok(())
}

/// Adds the names of the types that an answer names, unless they are there.
fn add_named(fact: &Fact, names: &mut IndexSet<Text>) -> Result<(), AllocError>
    ensures { OnOk result (names.new.keys ≡ add_names names.old.keys (types_in fact.now)) }
{
    match fact {
        Fact::Field(field) => {
            let field = field.get();
            names.insert(field.of_type.name.copy()?)?;
            add_inputs(field.arguments.as_slice(), names)
        }
        Fact::Input(fields) => add_inputs(fields.get().as_slice(), names),
        Fact::Directive(directive) => add_inputs(directive.get().arguments.as_slice(), names),
        Fact::Root(name) => {
            names.insert(name.get().copy()?)?;
            Ok(())
        }
        _ => Ok(()),
    }
}

/// What a world answers about the type of a name.
fn ask_type<W: World>(alloc: Global, world: &mut W, name: &Text) -> Result<TypeAnswers, AllocError>
    ensures facts { W.facts world.new ≡ W.facts world.old }
    ensures names { W.names world.new ≡ W.names world.old }
    ensures lent { W.lent world.new ≡ W.lent world.old }
    ensures name { IfOk result (λ t. t.name ≡ name.now) }
    ensures kind { IfOk result (λ t. t.kind ≡ W.facts world.old (key.KindOf name.now)) }
    ensures possible { IfOk result (λ t. t.possible ≡ W.facts world.old (key.PossibleOf name.now)) }
    ensures input { IfOk result (λ t. t.input ≡ W.facts world.old (key.InputOf name.now)) }
    ensures values { IfOk result (λ t. t.values ≡ W.facts world.old (key.EnumOf name.now)) }
{
    let kind = world.fact(alloc, &Key::KindOf(name.copy()?))?;
    let possible = world.fact(alloc, &Key::PossibleOf(name.copy()?))?;
    let input = world.fact(alloc, &Key::InputOf(name.copy()?))?;
    let values = world.fact(alloc, &Key::EnumOf(name.copy()?))?;
    let name = name.copy()?;
    Ok(TypeAnswers {
        name,
        kind,
        possible,
        input,
        values,
    })
}

/// What is known of the type of a name, if anything is.
fn known_type(
    name: &Text,
    known: &IndexMap<Text, Shared<TypeAnswers>>,
) -> Result<Option<Shared<TypeAnswers>>, AllocError>
    ensures { IfOk result (λ found. found ≡ get bytes_eq known.now name.now) }
{
    match known.get(name) {
        Some(answers) => Ok(Some(answers.clone()?)),
        None => Ok(None),
    }
}

/// Asks about a type of which nothing is known. It is known from then on.
fn ask_first<W: World>(
    alloc: Global,
    world: &mut W,
    name: &Text,
    known: &mut IndexMap<Text, Shared<TypeAnswers>>,
) -> Result<Shared<TypeAnswers>, AllocError>
    requires absent { get bytes_eq known.old name.now ≡ None }
    requires known { AreTypes (W.facts world.old) known.old.entries }
    ensures facts { W.facts world.new ≡ W.facts world.old }
    ensures names { W.names world.new ≡ W.names world.old }
    ensures lent { W.lent world.new ≡ W.lent world.old }
    ensures known { AreTypes (W.facts world.old) known.new.entries }
    ensures name { IfOk result (λ t. t.name ≡ name.now) }
    ensures hold { IfOk result (λ t. Hold (W.facts world.old) (about t)) }
    ensures input { IfOk result (λ t. t.input ≡ W.facts world.old (key.InputOf name.now)) }
{
    let asked = ask_type(alloc, world, name)?;
    let answers = Shared::new(alloc, asked)?;
    let entry = answers.clone()?;
    known.insert(name.copy()?, entry)?;
    Ok(answers)
}

/// What a world answers about the type of a name. It is asked, unless it is known.
fn type_answers<W: World>(
    alloc: Global,
    world: &mut W,
    name: &Text,
    known: &mut IndexMap<Text, Shared<TypeAnswers>>,
) -> Result<Shared<TypeAnswers>, AllocError>
    requires known { AreTypes (W.facts world.old) known.old.entries }
    ensures facts { W.facts world.new ≡ W.facts world.old }
    ensures names { W.names world.new ≡ W.names world.old }
    ensures lent { W.lent world.new ≡ W.lent world.old }
    ensures known { AreTypes (W.facts world.old) known.new.entries }
    ensures name { IfOk result (λ t. t.name ≡ name.now) }
    ensures hold { IfOk result (λ t. Hold (W.facts world.old) (about t)) }
    ensures input { IfOk result (λ t. t.input ≡ W.facts world.old (key.InputOf name.now)) }
{
    match known_type(name, known)? {
        Some(answers) => Ok(answers),
        None => {
            let answers = ask_first(alloc, world, name, known)?;
            Ok(answers)
        }
    }
}

/// Whether a world still answers this about types. Each is asked about once, unless it is known.
pub fn types_still_hold<W: World>(
    alloc: Global,
    world: &mut W,
    types: &[Shared<TypeAnswers>],
    known: &mut IndexMap<Text, Shared<TypeAnswers>>,
) -> Result<bool, AllocError>
    requires { AreTypes (W.facts world.old) known.old.entries }
    ensures facts { W.facts world.new ≡ W.facts world.old }
    ensures names { W.names world.new ≡ W.names world.old }
    ensures lent { W.lent world.new ≡ W.lent world.old }
    ensures known { AreTypes (W.facts world.old) known.new.entries }
    ensures hold { IfOk result (λ hold. IsTrue hold
        → Hold (W.facts world.old) (about_all types.now)) }
{
    for of_type in types {
        let now = type_answers(alloc, world, &of_type.get().name, known)?;
        let is_same = now.get().same(of_type.get());
        if !is_same {
            return Ok(false);
        }
    }
    Ok(true)
}

/// The name at an index.
fn name_at(names: &IndexSet<Text>, at: usize) -> Result<Option<Text>, AllocError>
    ensures { IfOk result (λ name. name ≡ slice_get names.now.keys at) }
{
    match names.get_index(at) {
        Some(name) => Ok(Some(name.copy()?)),
        None => Ok(None),
    }
}

/// Asks about the type of the name at an index, and adds the names of the types that its input
/// fields have.
fn visit<W: World>(
    alloc: Global,
    world: &mut W,
    at: usize,
    known: &mut IndexMap<Text, Shared<TypeAnswers>>,
    names: &mut IndexSet<Text>,
    types: &mut Vec<Shared<TypeAnswers>>,
) -> Result<(), AllocError>
    requires known { AreTypes (W.facts world.old) known.old.entries }
    ensures facts { W.facts world.new ≡ W.facts world.old }
    ensures names { W.names world.new ≡ W.names world.old }
    ensures lent { W.lent world.new ≡ W.lent world.old }
    ensures known { AreTypes (W.facts world.old) known.new.entries }
    ensures named { OnOk result ((n : List ℕ) → slice_get names.old.keys at ≡ Some n
        → names.new.keys ≡ add_names names.old.keys
        (types_in (W.facts world.old (key.InputOf n)))) }
    ensures asked { OnOk result ((n : List ℕ) → slice_get names.old.keys at ≡ Some n
        → (t : AType) × (types.new.items ≡ types.old.items ++ t ∷ []) × (t.name ≡ n)
        × Hold (W.facts world.old) (about t)) }
{
    let Some(name) = name_at(names, at)? else {
        return Ok(());
    };
    let found = type_answers(alloc, world, &name, known)?;
    add_named(&found.get().input, names)?;
    types.push(found)?;
    Ok(())
}

/// What a world answers about exactly the types that an answer leads to. Each is asked about once,
/// unless it is known.
pub fn types_led_to<W: World>(
    alloc: Global,
    world: &mut W,
    fact: &Fact,
    known: &mut IndexMap<Text, Shared<TypeAnswers>>,
) -> Result<Vec<Shared<TypeAnswers>>, AllocError>
    requires { AreTypes (W.facts world.old) known.old.entries }
    ensures facts { W.facts world.new ≡ W.facts world.old }
    ensures names { W.names world.new ≡ W.names world.old }
    ensures lent { W.lent world.new ≡ W.lent world.old }
    ensures known { AreTypes (W.facts world.old) known.new.entries }
    ensures hold { IfOk result (λ types. Hold (W.facts world.old) (about_all types.items)) }
    ensures led { IfOk result (λ types. Lists (names_in types.items)
        (LeadsTo (W.facts world.old) fact.now)) }
{
    let mut names = IndexSet::new(alloc);
    let mut types = Vec::new(alloc);
    add_named(fact, &mut names)?;
    let mut at = 0;
    'walk: while at < names.len() {
        visit(alloc, world, at, known, &mut names, &mut types)?;
        at += 1;
    }
    types.shrink_to_fit();
    Ok(types)
}
