//! Whether the removal of a part of the schema breaks a definition.
ghost use Rattle.std.specs.Prelude.{◌≡◌, ◌↔◌, IfOk, IsTrue};
ghost use Rattle.gql_facts.specs.Worlds.{Facts};
ghost use Rattle.gql_removal.specs.Removals.{without};
ghost use Rattle.gql_reads.specs.Observations.{Hold};
ghost use Rattle.gql_usage.specs.Breaks as spec;
ghost use Rattle.gql_facts.specs.Presents.{facts_of_present};
ghost use Rattle.gql_usage.specs.Stored.{AreStored, IsStored};
ghost use Rattle.gql_verdict.specs.SharedWorks.{Holds};

use crate::same_faults::has_new;
use crate::untouched::is_untouched;
use gql_ast::{Definition, OperationKind, Same, Tree};
use gql_facts::{Key, Present, World};
use gql_pairs::PairTable;
use gql_reads::NoParts;
use gql_removal::{Removal, Without, left_of};
use gql_verdict::{Meter, SharedWork, Shelf, Verdict, examine};
use std::alloc::{AllocError, Global};

/// A part of a schema that is asked about: what is stored, and what the removal of the part is.
#[derive(Clone, Copy)]
pub struct Question<'q> {
    pub present: Present<'q>,
    pub shelf: &'q Shelf,
    pub removal: &'q Removal,
}

/// Whether a definition has a fault in this world that its verdict does not have.
fn gains_fault<W: World>(
    alloc: Global,
    world: &mut W,
    verdict: &Verdict,
    shared: &mut SharedWork,
) -> Result<bool, AllocError>
    requires shared { Holds (W.facts world.old) shared.old }
    ensures facts { W.facts world.new ≡ W.facts world.old }
    ensures shared { Holds (W.facts world.old) shared.new }
    ensures gains { IfOk result (λ gains. (before : Facts)
        → Hold before verdict.now.observations
        → IsTrue gains ↔ spec.GainsFault before (W.facts world.old) verdict.now.def) }
{
    let before = verdict.faults();
    let definition = verdict.def();
    let mut meter = Meter::new(alloc);
    let after = examine(alloc, world, definition, &NoParts {}, shared, &mut meter)?;
    Ok(has_new(after.faults(), before))
}

/// Whether a removal leaves all answers as they are that a verdict observed. Then the definition has the
/// faults that it had.
fn is_verdict_untouched(removal: &Removal, verdict: &Verdict) -> bool
    ensures { IsTrue result → (before : Facts) → Hold before verdict.now.observations
        → spec.GainsFault before (without removal.now before) verdict.now.def → ⊥ }
{
    let _faults = verdict.faults();
    is_untouched(removal, verdict.reading())
}

/// The kind of an operation; another definition has none.
fn operation_kind(tree: &Tree) -> Option<OperationKind>
    ensures { result ≡ spec.operation_kind tree.now }
{
    match tree {
        Tree::Operation(operation) => Some(operation.get().kind),
        _ => None,
    }
}

/// Whether the removal takes away the root operation type of a kind.
fn loses_root_of(
    alloc: Global,
    present: Present<'_>,
    removal: &Removal,
    kind: OperationKind,
) -> Result<bool, AllocError>
    ensures { IfOk result (λ loses. IsTrue loses
        ↔ spec.LosesRootOf (facts_of_present present.entry) removal.now kind) }
{
    let mut world = present;
    let key = Key::RootOf(kind);
    let root = world.fact(alloc, &key)?;
    let left = left_of(alloc, removal, &key, root.copy()?)?;
    Ok(!left.same(&root))
}

/// Whether an operation loses its root.
fn loses_root(
    alloc: Global,
    present: Present<'_>,
    removal: &Removal,
    tree: &Tree,
) -> Result<bool, AllocError>
    ensures { IfOk result (λ loses. IsTrue loses
        ↔ spec.LosesRoot (facts_of_present present.entry) removal.now tree.now) }
{
    match operation_kind(tree) {
        Some(kind) => loses_root_of(alloc, present, removal, kind),
        None => Ok(false),
    }
}

/// Whether the removal breaks the definition of a verdict. It is examined again only if the removal
/// changes an answer that it depends on.
fn breaks(
    alloc: Global,
    present: Present<'_>,
    removal: &Removal,
    verdict: &Verdict,
    shared: &mut SharedWork,
) -> Result<bool, AllocError>
    requires hold { Hold (facts_of_present present) verdict.now.observations }
    requires shared { Holds (without removal.now (facts_of_present present)) shared.old }
    ensures shared { Holds (without removal.now (facts_of_present present.entry)) shared.new }
    ensures breaks { IfOk result (λ breaks. IsTrue breaks
        ↔ spec.Breaks (facts_of_present present.entry) removal.now verdict.now.def) }
{
    let loses = loses_root(alloc, present, removal, &verdict.def().tree)?;
    if loses {
        return Ok(true);
    }
    if is_verdict_untouched(removal, verdict) {
        return Ok(false);
    }
    let mut world = Without { present, removal };
    gains_fault(alloc, &mut world, verdict, shared)
}

/// Whether the removal breaks a definition that is stored.
pub fn breaks_definition(
    alloc: Global,
    question: &Question<'_>,
    definition: &Definition,
    shared: &mut SharedWork,
) -> Result<bool, AllocError>
    requires stored { IsStored (facts_of_present question.now.present)
        question.now.shelf.now.verdicts definition.now }
    requires shared { Holds (without question.now.removal.now
        (facts_of_present question.now.present)) shared.old }
    ensures shared { Holds (without question.now.removal.now
        (facts_of_present question.now.present)) shared.new }
    ensures breaks { IfOk result (λ breaks. IsTrue breaks
        ↔ spec.Breaks (facts_of_present question.now.present) question.now.removal.now
        definition.now) }
{
    let id = definition.id()?;
    match question.shelf.get(&id) {
        Some(verdict) => breaks(alloc, question.present, question.removal, verdict, shared),
        None => Ok(false),
    }
}

/// Whether the removal breaks none of these definitions, which are all that are stored.
pub fn breaks_none(
    alloc: Global,
    question: &Question<'_>,
    definitions: &[Definition],
) -> Result<bool, AllocError>
    requires stored { AreStored (facts_of_present question.now.present) definitions.now
        question.now.shelf.now.verdicts }
    ensures { IfOk result (λ none. IsTrue none
        ↔ spec.IsUnread (facts_of_present question.now.present) question.now.removal.now
        definitions.now) }
{
    let mut shared = nothing_shared(alloc);
    for definition in definitions {
        let breaks = breaks_definition(alloc, question, definition, &mut shared)?;
        if breaks {
            return Ok(false);
        }
    }
    Ok(true)
}

/// Nothing that examinations share yet.
pub fn nothing_shared(alloc: Global) -> SharedWork
    ensures { (facts : Facts) → Holds facts result }
{
    SharedWork::new(alloc, PairTable::new(alloc))
}
