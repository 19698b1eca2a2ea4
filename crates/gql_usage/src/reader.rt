//! The stored operations and fragments that read a part of the schema.
ghost use Rattle.std.specs.Prelude.{◌≡◌, ◌++◌, ◌∷◌, [], ◌↔◌, IfOk, OnOk, IsTrue, List, false};
ghost use Rattle.gql_ast.specs.declared.definition.Definition.{Definition as ADefinition};
ghost use Rattle.gql_facts.specs.Members.{Lists};
ghost use Rattle.gql_removal.specs.Removals.{without};
ghost use Rattle.gql_usage.specs.Adding as adding;
ghost use Rattle.gql_usage.specs.Breaks.{Breaks, IsUnread};
ghost use Rattle.gql_usage.specs.Readers as spec;
ghost use Rattle.gql_facts.specs.Presents.{facts_of_present};
ghost use Rattle.gql_usage.specs.Stored.{AreStored, IsStored, definition_of, facts_of};
ghost use Rattle.gql_verdict.specs.SharedWorks.{Holds};

use crate::breaks::{Question, breaks_definition, nothing_shared};
use crate::stored::Stored;
use gql_ast::{Definition, FilePlace, FileSide, Text, Tree};
use gql_facts::{FragmentFact, walk_reads};
use gql_removal::Removal;
use gql_verdict::{SharedWork, Shelf};
use std::alloc::{AllocError, Global};

/// A definition that reads a part of the schema: by itself, or through fragments that it reaches and
/// that read the part by themselves, or both.
#[derive(Drop)]
pub struct Reader {
    pub definition: Definition,
    pub by_itself: bool,
    pub through: Vec<Text>,
}

/// The definition of a fragment.
fn fragment_definition(fragment: &FragmentFact) -> Result<Definition, AllocError>
    ensures { IfOk result (λ definition. definition ≡ definition_of fragment.now) }
{
    let file = fragment.file.copy()?;
    let its = fragment.fragment.clone()?;
    Ok(Definition {
        file,
        tree: Tree::Fragment(its),
    })
}

/// Whether the removal breaks a fragment.
fn breaks_fragment(
    alloc: Global,
    question: &Question<'_>,
    fragment: &FragmentFact,
    shared: &mut SharedWork,
) -> Result<bool, AllocError>
    requires stored { IsStored (facts_of_present question.now.present)
        question.now.shelf.now.verdicts (definition_of fragment.now) }
    requires shared { Holds (without question.now.removal.now
        (facts_of_present question.now.present)) shared.old }
    ensures shared { Holds (without question.now.removal.now
        (facts_of_present question.now.present)) shared.new }
    ensures breaks { IfOk result (λ breaks. IsTrue breaks
        ↔ Breaks (facts_of_present question.now.present) question.now.removal.now
        (definition_of fragment.now)) }
{
    let definition = fragment_definition(fragment)?;
    breaks_definition(alloc, question, &definition, shared)
}

/// Adds the name of a fragment, if the removal breaks it.
fn add_name(
    alloc: Global,
    question: &Question<'_>,
    fragment: &FragmentFact,
    shared: &mut SharedWork,
    names: &mut Vec<Text>,
) -> Result<(), AllocError>
    requires stored { IsStored (facts_of_present question.now.present)
        question.now.shelf.now.verdicts (definition_of fragment.now) }
    requires shared { Holds (without question.now.removal.now
        (facts_of_present question.now.present)) shared.old }
    ensures shared { Holds (without question.now.removal.now
        (facts_of_present question.now.present)) shared.new }
    ensures adds { OnOk result (adding.AddsName (facts_of_present question.now.present)
        question.now.removal.now fragment.now names.old.items names.new.items) }
{
    let breaks = breaks_fragment(alloc, question, fragment, shared)?;
    if !breaks {
        return Ok(());
    }
    names.push(fragment.fragment.get().name.text.copy()?)?;
    Ok(())
}

/// The names of the fragments among these that the removal breaks.
fn broken_names(
    alloc: Global,
    question: &Question<'_>,
    fragments: &[FragmentFact],
    shared: &mut SharedWork,
) -> Result<Vec<Text>, AllocError>
    requires stored { adding.AreAllStored (facts_of_present question.now.present)
        question.now.shelf.now.verdicts fragments.now }
    requires shared { Holds (without question.now.removal.now
        (facts_of_present question.now.present)) shared.old }
    ensures shared { Holds (without question.now.removal.now
        (facts_of_present question.now.present)) shared.new }
    ensures names { IfOk result (λ names. Lists names.items
        (adding.IsBrokenName (facts_of_present question.now.present) question.now.removal.now
        fragments.now)) }
{
    let mut names = Vec::new(alloc);
    for fragment in fragments {
        add_name(alloc, question, fragment, shared, &mut names)?;
    }
    Ok(names)
}

/// The names of the fragments that a definition reaches and that the removal breaks.
fn names_through(
    alloc: Global,
    question: &Question<'_>,
    definition: &Definition,
    shared: &mut SharedWork,
) -> Result<Vec<Text>, AllocError>
    requires stored { IsStored (facts_of_present question.now.present)
        question.now.shelf.now.verdicts definition.now }
    requires shared { Holds (without question.now.removal.now
        (facts_of_present question.now.present)) shared.old }
    ensures shared { Holds (without question.now.removal.now
        (facts_of_present question.now.present)) shared.new }
    ensures names { IfOk result (λ names. Lists names.items
        (spec.IsThrough (facts_of_present question.now.present) question.now.removal.now
        definition.now)) }
{
    let mut world = question.present;
    let walk = walk_reads(alloc, &mut world, definition)?;
    broken_names(alloc, question, walk.members.as_slice(), shared)
}

/// Whether a definition reads the part neither by itself nor through one of these fragments.
fn reads_nothing(by_itself: bool, through: &[Text]) -> bool
    ensures { IsTrue result ↔ (by_itself ≡ false) × (through.now ≡ []) }
{
    !by_itself && through.is_empty()
}

/// Adds a definition, if it reads the part.
fn add_reader(
    alloc: Global,
    question: &Question<'_>,
    definition: &Definition,
    shared: &mut SharedWork,
    readers: &mut Vec<Reader>,
) -> Result<(), AllocError>
    requires stored { IsStored (facts_of_present question.now.present)
        question.now.shelf.now.verdicts definition.now }
    requires shared { Holds (without question.now.removal.now
        (facts_of_present question.now.present)) shared.old }
    ensures shared { Holds (without question.now.removal.now
        (facts_of_present question.now.present)) shared.new }
    ensures adds { OnOk result ((ds : List ADefinition)
        → spec.AreReaders (facts_of_present question.now.present) question.now.removal.now
        ds readers.old.items
        → spec.AreReaders (facts_of_present question.now.present) question.now.removal.now
        (ds ++ definition.now ∷ []) readers.new.items) }
{
    let by_itself = breaks_definition(alloc, question, definition, shared)?;
    let through = names_through(alloc, question, definition, shared)?;
    if reads_nothing(by_itself, through.as_slice()) {
        return Ok(());
    }
    let definition = definition.copy()?;
    readers.push(Reader {
        definition,
        by_itself,
        through,
    })?;
    Ok(())
}

/// The definitions among these, which are all that are stored, that read the part.
fn readers_among(
    alloc: Global,
    question: &Question<'_>,
    definitions: &[Definition],
) -> Result<Vec<Reader>, AllocError>
    requires stored { AreStored (facts_of_present question.now.present) definitions.now
        question.now.shelf.now.verdicts }
    ensures readers { IfOk result (λ readers. spec.AreReaders
        (facts_of_present question.now.present) question.now.removal.now definitions.now
        readers.items) }
{
    let mut shared = nothing_shared(alloc);
    let mut readers = Vec::new(alloc);
    for definition in definitions {
        add_reader(alloc, question, definition, &mut shared, &mut readers)?;
    }
    Ok(readers)
}

/// The stored definitions that read a part of the schema, which is asked about by its removal, in the
/// order of the definitions. There is none exactly if the removal breaks no definition.
pub fn readers_of(
    alloc: Global,
    stored: &Stored,
    shelf: &Shelf,
    removal: &Removal,
) -> Result<Vec<Reader>, AllocError>
    requires stored { AreStored (facts_of stored.now) stored.now.definitions.items
        shelf.now.verdicts }
    ensures readers { IfOk result (λ readers. spec.AreReaders (facts_of stored.now) removal.now
        stored.now.definitions.items readers.items) }
    ensures none { IfOk result (λ readers. (readers.items ≡ [])
        ↔ IsUnread (facts_of stored.now) removal.now stored.now.definitions.items) }
{
    let question = Question {
        present: stored.present(),
        shelf,
        removal,
    };
    readers_among(alloc, &question, stored.definitions())
}

/// Where a definition begins.
pub fn place_of(definition: &Definition) -> Result<FilePlace, AllocError> {
    Ok(FilePlace {
        side: FileSide::Documents,
        file: definition.file.copy()?,
        place: definition.tree.place(),
    })
}
