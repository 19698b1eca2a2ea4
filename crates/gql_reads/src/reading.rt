//! What a definition reads, as handles of what was observed of it and of each fragment that it
//! reaches.
ghost use Rattle.std.specs.Prelude.{◌≡◌, IfOk, IfSome, OnOk, None, Contains, Some, slice_get};
ghost use Rattle.std.specs.Option.{option_copied};
ghost use Rattle.gql_facts.specs.Members.{Lists};
ghost use Rattle.gql_facts.specs.Reads.{Reaches, Reads};
ghost use Rattle.gql_facts.specs.declared.fact.FragmentFact.{FragmentFact as AFragment};
ghost use Rattle.gql_reads.specs.Observations.{Hold, keys_of};
ghost use Rattle.gql_reads.specs.Leading.{AreLed};
ghost use Rattle.gql_reads.specs.Readings.{AreShared, answers_in, flat, members_of, name_of};
ghost use Rattle.gql_reads.specs.Reaching.{AreMet, IsNamed, IsPartOf, Meets};
ghost use Rattle.gql_reads.specs.Records.{IsRecord, IsTold, Kept};
ghost use Rattle.gql_reads.specs.Tables.{AllHold, Keeps, entry_at};

use crate::holds::is_named;
use crate::part::Part;
use crate::record::{Record, record_of};
use crate::retest::{KeptParts, part_for};
use crate::table::ReadTable;
use gql_ast::{Definition, Shared, Text, Tree};
use gql_facts::{FragmentFact, World};
use indexmap::IndexSet;
use std::alloc::{AllocError, Global};

/// What was observed of a definition alone.
pub struct OwnReads {
    pub record: Shared<Record>,
    /// The part of the definition, if it is the fragment of its name.
    pub part: Option<Part>,
}

impl Drop for OwnReads {
    fn drop(self) {
        let OwnReads { record: _, part: _ } = self;
    }
}

/// What was observed of a definition alone, and of each fragment that it reaches.
pub struct Reading {
    pub own: OwnReads,
    pub parts: Vec<Part>,
}

impl Drop for Reading {
    fn drop(self) {
        let Reading { own: _, parts: _ } = self;
    }
}

impl Reading {
    /// The fragments that the definition reaches.
    pub fn members(&self, alloc: Global) -> Result<Vec<FragmentFact>, AllocError>
        ensures { IfOk result (λ members. members.items ≡ members_of self.now.parts.items) }
    {
        let mut members = Vec::with_capacity(alloc, self.parts.len())?;
        for part in self.parts.as_slice() {
            members.push(part.fragment().copy()?)?;
        }
        Ok(members)
    }
}

/// The parts that a walk has met, each of another name.
#[derive(Drop)]
struct Met {
    names: IndexSet<Text>,
    parts: Vec<Part>,
}

/// Makes the part of a fragment that has no entry, and adds it.
fn add_part<W: World, K: KeptParts>(
    alloc: Global,
    world: &mut W,
    kept: &K,
    table: &mut ReadTable,
    fragment: &FragmentFact,
) -> Result<Part, AllocError>
    requires holds { AllHold (W.facts world.old) table.old }
    requires named { IsNamed (W.facts world.old) fragment.now }
    requires absent { entry_at table.old (name_of fragment.now) ≡ None }
    ensures facts { W.facts world.new ≡ W.facts world.old }
    ensures names { W.names world.new ≡ W.names world.old }
    ensures lent { W.lent world.new ≡ W.lent world.old }
    ensures holds { AllHold (W.facts world.old) table.new }
    ensures keeps { Keeps table.old table.new }
    ensures part { IfOk result (IsPartOf (W.facts world.old) table.new fragment.now) }
{
    let part = part_for(alloc, world, kept, fragment, table)?;
    let entry = part.copy()?;
    let name = fragment.fragment.get().name.text.copy()?;
    table.add(name, entry)?;
    Ok(part)
}

/// The part of a fragment, from the table if it is there; else it is made.
fn part_of<W: World, K: KeptParts>(
    alloc: Global,
    world: &mut W,
    kept: &K,
    table: &mut ReadTable,
    fragment: &FragmentFact,
) -> Result<Part, AllocError>
    requires holds { AllHold (W.facts world.old) table.old }
    requires named { IsNamed (W.facts world.old) fragment.now }
    ensures facts { W.facts world.new ≡ W.facts world.old }
    ensures names { W.names world.new ≡ W.names world.old }
    ensures lent { W.lent world.new ≡ W.lent world.old }
    ensures holds { AllHold (W.facts world.old) table.new }
    ensures keeps { Keeps table.old table.new }
    ensures part { IfOk result (IsPartOf (W.facts world.old) table.new fragment.now) }
{
    if let Some(part) = table.get(&fragment.fragment.get().name.text) {
        return part.copy();
    }
    add_part(alloc, world, kept, table, fragment)
}

/// Adds the part of a fragment, unless it was met.
fn meet<W: World, K: KeptParts>(
    alloc: Global,
    world: &mut W,
    kept: &K,
    table: &mut ReadTable,
    fragment: &FragmentFact,
    met: &mut Met,
) -> Result<(), AllocError>
    requires holds { AllHold (W.facts world.old) table.old }
    requires named { IsNamed (W.facts world.old) fragment.now }
    requires met { AreMet (W.facts world.old) table.old met.old.names.keys met.old.parts.items }
    ensures facts { W.facts world.new ≡ W.facts world.old }
    ensures names { W.names world.new ≡ W.names world.old }
    ensures lent { W.lent world.new ≡ W.lent world.old }
    ensures holds { AllHold (W.facts world.old) table.new }
    ensures keeps { Keeps table.old table.new }
    ensures met { OnOk result
        (AreMet (W.facts world.old) table.new met.new.names.keys met.new.parts.items) }
    ensures meets { OnOk result (Meets (λ g. g ≡ fragment.now)
        met.old.parts.items met.new.parts.items) }
{
    let name = &fragment.fragment.get().name.text;
    if met.names.contains(name) {
        return Ok(());
    }
    let part = part_of(alloc, world, kept, table, fragment)?;
    met.names.insert(name.copy()?)?;
    met.parts.push(part)?;
    Ok(())
}

/// Adds the parts of those of these fragments that were not met.
fn meet_all<W: World, K: KeptParts>(
    alloc: Global,
    world: &mut W,
    kept: &K,
    table: &mut ReadTable,
    fragments: &[FragmentFact],
    met: &mut Met,
) -> Result<(), AllocError>
    requires holds { AllHold (W.facts world.old) table.old }
    requires named { (g : AFragment) → Contains fragments.now g → IsNamed (W.facts world.old) g }
    requires met { AreMet (W.facts world.old) table.old met.old.names.keys met.old.parts.items }
    ensures facts { W.facts world.new ≡ W.facts world.old }
    ensures names { W.names world.new ≡ W.names world.old }
    ensures lent { W.lent world.new ≡ W.lent world.old }
    ensures holds { AllHold (W.facts world.old) table.new }
    ensures keeps { Keeps table.old table.new }
    ensures met { OnOk result
        (AreMet (W.facts world.old) table.new met.new.names.keys met.new.parts.items) }
    ensures meets { OnOk result (Meets (Contains fragments.now)
        met.old.parts.items met.new.parts.items) }
{
    for fragment in fragments {
        meet(alloc, world, kept, table, fragment, met)?;
    }
    Ok(())
}

/// The part at an index.
fn part_at(parts: &[Part], at: usize) -> Option<&Part>
    ensures { option_copied result ≡ slice_get parts.now at }
{
    parts.get(at)
}

/// Adds the parts of the fragments that the part at an index spreads.
fn visit<W: World, K: KeptParts>(
    alloc: Global,
    world: &mut W,
    kept: &K,
    table: &mut ReadTable,
    at: usize,
    met: &mut Met,
) -> Result<(), AllocError>
    requires holds { AllHold (W.facts world.old) table.old }
    requires met { AreMet (W.facts world.old) table.old met.old.names.keys met.old.parts.items }
    ensures facts { W.facts world.new ≡ W.facts world.old }
    ensures names { W.names world.new ≡ W.names world.old }
    ensures lent { W.lent world.new ≡ W.lent world.old }
    ensures holds { AllHold (W.facts world.old) table.new }
    ensures keeps { Keeps table.old table.new }
    ensures met { OnOk result
        (AreMet (W.facts world.old) table.new met.new.names.keys met.new.parts.items) }
    ensures meets { OnOk result ((p : Kept) → slice_get met.old.parts.items at ≡ Some p
        → Meets (IsTold p.seen) met.old.parts.items met.new.parts.items) }
{
    let Some(part) = part_at(met.parts.as_slice(), at) else {
        return Ok(());
    };
    let seen = part.seen().clone()?;
    meet_all(alloc, world, kept, table, seen.get().spreads(), met)?;
    Ok(())
}

/// The part of a definition that is the fragment of its name: the one in the table.
fn own_part<W: World, K: KeptParts>(
    alloc: Global,
    world: &mut W,
    kept: &K,
    table: &mut ReadTable,
    definition: &Definition,
) -> Result<Option<Part>, AllocError>
    requires holds { AllHold (W.facts world.old) table.old }
    ensures facts { W.facts world.new ≡ W.facts world.old }
    ensures names { W.names world.new ≡ W.names world.old }
    ensures lent { W.lent world.new ≡ W.lent world.old }
    ensures holds { AllHold (W.facts world.old) table.new }
    ensures keeps { Keeps table.old table.new }
    ensures own { IfOk result (λ found.
        IfSome found (λ part. IsRecord (W.facts world.old) definition.now.tree part.seen)) }
{
    let Tree::Fragment(fragment) = &definition.tree else {
        return Ok(None);
    };
    let fragment = FragmentFact {
        file: definition.file.copy()?,
        fragment: fragment.clone()?,
    };
    let is_named = is_named(alloc, world, &fragment)?;
    if !is_named {
        return Ok(None);
    }
    let part = part_of(alloc, world, kept, table, &fragment)?;
    Ok(Some(part))
}

/// What was observed of a definition alone.
fn own_of<W: World, K: KeptParts>(
    alloc: Global,
    world: &mut W,
    kept: &K,
    table: &mut ReadTable,
    definition: &Definition,
) -> Result<OwnReads, AllocError>
    requires holds { AllHold (W.facts world.old) table.old }
    ensures facts { W.facts world.new ≡ W.facts world.old }
    ensures names { W.names world.new ≡ W.names world.old }
    ensures lent { W.lent world.new ≡ W.lent world.old }
    ensures holds { AllHold (W.facts world.old) table.new }
    ensures keeps { Keeps table.old table.new }
    ensures own { IfOk result (λ own. IsRecord (W.facts world.old) definition.now.tree own.record) }
{
    match own_part(alloc, world, kept, table, definition)? {
        Some(part) => {
            let record = part.seen().clone()?;
            Ok(OwnReads {
                record,
                part: Some(part),
            })
        }
        None => {
            let record = record_of(alloc, world, kept, &definition.tree, table)?;
            let record = Shared::new(alloc, record)?;
            Ok(OwnReads { record, part: None })
        }
    }
}

/// What was observed of a definition: a handle of its own record, and a part of each fragment that
/// it reaches. A fragment that the table has is not walked. Of each other, a part that is kept is
/// added to the table if what was observed then still holds; else the fragment is walked, once.
/// Answers that the table has, or that are kept and have not changed, are shared. Whether it succeeds or an allocation fails, no entry is lost,
/// and all entries hold.
pub fn reads_of<W: World, K: KeptParts>(
    alloc: Global,
    world: &mut W,
    kept: &K,
    table: &mut ReadTable,
    definition: &Definition,
) -> Result<Reading, AllocError>
    requires holds { AllHold (W.facts world.old) table.old }
    ensures facts { W.facts world.new ≡ W.facts world.old }
    ensures names { W.names world.new ≡ W.names world.old }
    ensures lent { W.lent world.new ≡ W.lent world.old }
    ensures holds { AllHold (W.facts world.old) table.new }
    ensures keeps { Keeps table.old table.new }
    ensures hold { IfOk result (λ r. Hold (W.facts world.old) (flat r)) }
    ensures keys { IfOk result (λ r.
        Lists (keys_of (flat r)) (Reads (W.facts world.old) definition.now)) }
    ensures members { IfOk result (λ r.
        Lists (members_of r.parts.items) (Reaches (W.facts world.old) definition.now)) }
    ensures shared { IfOk result (AreShared table.new) }
    ensures led { IfOk result (λ r. AreLed (answers_in r)) }
{
    let own = own_of(alloc, world, kept, table, definition)?;
    let mut met = Met {
        names: IndexSet::new(alloc),
        parts: Vec::new(alloc),
    };
    meet_all(
        alloc,
        world,
        kept,
        table,
        own.record.get().spreads(),
        &mut met,
    )?;
    let mut at = 0;
    'walk: while at < met.names.len() {
        visit(alloc, world, kept, table, at, &mut met)?;
        at += 1;
    }
    let Met { names: _, parts } = met;
    Ok(Reading { own, parts })
}
