//! The rules of this crate together.
ghost use Rattle.std.specs.Prelude.{◌≡◌, ◌++◌, ◌↔◌, ◌⊎◌, ◌&&◌, ◌||◌, not, [], ℕ, List, IfOk, OnOk, IsTrue, Contains, flat_map, if◌then◌else◌};
ghost use Rattle.std.specs.List.{All};
ghost use Rattle.gql_ast.specs.declared.fault.Fault.{Fault as TheFault};
ghost use Rattle.gql_cycles.specs.Names.{Leads};
ghost use Rattle.gql_iface_rules.specs.Alike.{KeepsInterfaces};
ghost use Rattle.gql_iface_rules.specs.Checked.{AreEnough};
ghost use Rattle.gql_iface_rules.specs.Implementing.{implementations_of, pairs_of};
ghost use Rattle.gql_iface_rules.specs.InterfaceFaults as spec;
ghost use Rattle.gql_iface_rules.specs.KnownNames.{AsksOfKnown};
ghost use Rattle.gql_iface_rules.specs.Pairing.{IsFaultOfTypes, IsPairFault};
ghost use Rattle.gql_iface_rules.specs.Quiet.{IsFound, IsQuiet, listed_on, types_named};
ghost use Rattle.gql_iface_rules.specs.S17InputObjectCycles as s17;
ghost use Rattle.gql_iface_rules.specs.S17InputObjectCycles.{input_rows};
ghost use Rattle.gql_types.specs.Edits.{KeepsOthers};

use crate::alike::keeps_interfaces;
use crate::known_names::are_known;
use crate::pairing::pairs_of_type;
use crate::quiet::{Checked, Found, Quiet};
use crate::s17_input_object_cycles::keeps_rows;
use crate::{
    s09_bad_interface_names, s10_self_implementation, s11_undeclared_interfaces,
    s12_missing_fields, s13_missing_arguments, s14_extra_required_arguments,
    s15_incompatible_field_types, s17_input_object_cycles, s19_default_value_cycles,
    s26_directive_cycles,
};
use gql_ast::{Fault, Text};
use gql_types::{Batched, Named, Schema, SchemaType};
use std::alloc::{AllocError, Global};

/// Whether both are so.
fn both(is: bool, is_too: bool) -> bool
    ensures { result ≡ (is && is_too) }
{
    is && is_too
}

/// Adds the faults of a type by S13 to S15. The result is whether S09 to S15 ask about no name
/// without a type.
fn check_pairs_of(
    alloc: Global,
    schema: &Schema,
    of_type: &SchemaType,
    faults: &mut Vec<Fault>,
) -> Result<bool, AllocError>
    ensures faults { OnOk result ((f : TheFault) → Contains faults.new.items f
        ↔ (Contains faults.old.items f ⊎ IsPairFault schema.now
        (flat_map pairs_of (implementations_of schema.now of_type.now)) f)) }
    ensures known { IfOk result (λ known.
        IsTrue known ↔ AsksOfKnown schema.now of_type.now) }
{
    let pairs = pairs_of_type(alloc, schema, of_type)?;
    let pairs = pairs.as_slice();
    s13_missing_arguments::check(alloc, pairs, faults)?;
    s14_extra_required_arguments::check(alloc, pairs, faults)?;
    let are_answered = s15_incompatible_field_types::check(alloc, schema, pairs, faults)?;
    let are_known = are_known(schema, of_type.interfaces.as_slice());
    Ok(both(are_answered, are_known))
}

/// Adds the faults of these types by S13 to S15. The result is whether S09 to S15 ask about no name
/// without a type.
fn check_pairs(
    alloc: Global,
    schema: &Schema,
    types: &[Batched<SchemaType>],
    faults: &mut Vec<Fault>,
) -> Result<bool, AllocError>
    ensures faults { OnOk result ((f : TheFault) → Contains faults.new.items f
        ↔ (Contains faults.old.items f ⊎ IsFaultOfTypes schema.now types.now f)) }
    ensures known { IfOk result (λ known. IsTrue known ↔ All (AsksOfKnown schema.now) types.now) }
{
    let mut are_all_known = true;
    for of_type in types {
        let is_known = check_pairs_of(alloc, schema, of_type.get(), faults)?;
        are_all_known = both(are_all_known, is_known);
    }
    Ok(are_all_known)
}

/// The faults of these types by S09 to S12.
fn listed_faults(
    alloc: Global,
    schema: &Schema,
    types: &[Batched<SchemaType>],
) -> Result<Vec<Fault>, AllocError>
    ensures { IfOk result (λ found. found.items ≡ listed_on schema.now types.now) }
{
    let mut faults = Vec::new(alloc);
    s09_bad_interface_names::check(alloc, schema, types, &mut faults)?;
    s10_self_implementation::check(alloc, types, &mut faults)?;
    s11_undeclared_interfaces::check(alloc, schema, types, &mut faults)?;
    s12_missing_fields::check(alloc, schema, types, &mut faults)?;
    Ok(faults)
}

/// Whether there are no faults.
fn are_none(faults: &[Fault]) -> bool
    ensures { IsTrue result → faults.now ≡ [] }
{
    faults.is_empty()
}

/// Adds the faults by S17, unless it is known that there are none. The result is whether there are
/// none.
fn check_inputs(
    alloc: Global,
    schema: &Schema,
    is_skipped: bool,
    faults: &mut Vec<Fault>,
) -> Result<bool, AllocError>
    ensures faults { OnOk result ((IsTrue is_skipped → (n : List ℕ)
        → Leads (input_rows schema.now) n n → ⊥)
        → (f : TheFault) → Contains faults.new.items f
        ↔ (Contains faults.old.items f ⊎ s17.IsFault schema.now f)) }
    ensures none { IfOk result (λ finds_none. IsTrue finds_none
        → (IsTrue is_skipped → (n : List ℕ) → Leads (input_rows schema.now) n n → ⊥)
        → (n : List ℕ) → Leads (input_rows schema.now) n n → ⊥) }
{
    if is_skipped {
        return Ok(true);
    }
    let finds_none = s17_input_object_cycles::check(alloc, schema, faults)?;
    Ok(finds_none)
}

/// All faults of a schema by the rules of this crate, if the types that are checked are enough.
fn faults_by(alloc: Global, schema: &Schema, checked: &Checked<'_>) -> Result<Found, AllocError>
    ensures { IfOk result (λ found. AreEnough schema.now checked.now → IsFound schema.now found) }
{
    let mut faults = listed_faults(alloc, schema, checked.interfaces)?;
    let are_all_known = check_pairs(alloc, schema, checked.interfaces, &mut faults)?;
    let interfaces = are_none(faults.as_slice());
    let names = both(checked.others_known, are_all_known);
    let inputs = check_inputs(alloc, schema, checked.skips_inputs, &mut faults)?;
    let defaults = s19_default_value_cycles::check(alloc, schema, checked.defaults, &mut faults)?;
    let directives = s26_directive_cycles::check(alloc, schema, checked.directives, &mut faults)?;
    let quiet = Quiet {
        interfaces,
        names,
        inputs,
        defaults,
        directives,
    };
    Ok(Found { faults, quiet })
}

/// The faults of a schema by the rules on interfaces, S09 to S15, and by the rules on cycles, S17,
/// S19 and S26, and which of these find nothing.
pub fn iface_faults_of(alloc: Global, schema: &Schema) -> Result<Found, AllocError>
    ensures { IfOk result (IsFound schema.now) }
{
    let all = schema.types();
    let checked = Checked {
        interfaces: all,
        others_known: true,
        skips_inputs: false,
        defaults: all,
        directives: all,
    };
    let found = faults_by(alloc, schema, &checked)?;
    Ok(found)
}

/// The faults of a schema by the rules on interfaces, S09 to S15, and by the rules on cycles, S17,
/// S19 and S26.
pub fn iface_faults(alloc: Global, schema: &Schema) -> Result<Vec<Fault>, AllocError>
    ensures sound { IfOk result (λ found. (f : TheFault)
        → Contains found.items f → spec.IsInterfaceFault schema.now f) }
    ensures complete { IfOk result (λ found. (f : TheFault)
        → spec.IsInterfaceFault schema.now f → Contains found.items f) }
{
    let found = iface_faults_of(alloc, schema)?;
    let Found { faults, quiet: _ } = found;
    Ok(faults)
}

/// These types, if they are enough, or all types.
fn enough<'t>(
    are_enough: bool,
    types: &'t [Batched<SchemaType>],
    all: &'t [Batched<SchemaType>],
) -> &'t [Batched<SchemaType>]
    ensures { result.now ≡ (if are_enough then types.now else all.now) }
{
    if are_enough { types } else { all }
}

/// Whether no type was at fault by the rules on interfaces, and an edit that changed types of these
/// names alone changes nothing that these rules ask of names. A name that had no type may come if
/// they asked about no such name.
fn keeps_names(were: Quiet, before: &Schema, after: &Schema, edited: &[Text]) -> bool
    ensures quiet { IsTrue result → IsTrue were.interfaces }
    ensures same { IsTrue result → KeepsOthers edited.now before.now after.now
        → KeepsOthers edited.now after.now before.now
        → KeepsInterfaces were.names before.now after.now }
{
    were.interfaces && keeps_interfaces(before, after, edited, were.names)
}

/// Whether S09 to S15 ask about no name without a type, of the types that are not checked: they are
/// those that are kept, or none.
fn are_others_known(keeps: bool, names: bool) -> bool
    ensures { result ≡ (not keeps || names) }
{
    !keeps || names
}

/// The same faults after an edit that changed types of these names alone; `types` are the types of
/// these names. Of what was quiet before the edit, only these types are checked: by S09 to S15 if
/// the edit changes nothing that these rules asked of names, by S17 only if one of them is an input
/// object that is new or needs other types, by S26 if the directives are the same.
///
/// A name that had no type and has one after the edit changes nothing if S09 to S15 asked about no
/// name without a type (`Quiet::names`). Otherwise all types are checked: a rule that needs the
/// definition of a name reports nothing where no definition has the name, so that a name that comes
/// may bring a fault to a type that asked about it.
pub fn iface_faults_after_edit(
    alloc: Global,
    before: &Schema,
    schema: &Schema,
    edited: &Named<Text>,
    types: &[Batched<SchemaType>],
    has_same_directives: bool,
    were: Quiet,
) -> Result<Found, AllocError>
    requires { types.now ≡ types_named edited.now schema.now }
    ensures { IfOk result (λ found. KeepsOthers edited.now before.now schema.now
        → KeepsOthers edited.now schema.now before.now
        → (IsTrue has_same_directives → before.now.directives ≡ schema.now.directives)
        → IsQuiet before.now were → IsFound schema.now found) }
{
    let all = schema.types();
    let keeps = keeps_names(were, before, schema, edited.as_slice());
    let keeps_inputs = keeps_rows(alloc, before, types)?;
    let keeps_directives = both(were.directives, has_same_directives);
    let checked = Checked {
        interfaces: enough(keeps, types, all),
        others_known: are_others_known(keeps, were.names),
        skips_inputs: both(were.inputs, keeps_inputs),
        defaults: enough(were.defaults, types, all),
        directives: enough(keeps_directives, types, all),
    };
    let found = faults_by(alloc, schema, &checked)?;
    Ok(found)
}
