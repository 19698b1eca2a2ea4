//! V26, Variables Are Input Types: the type of a variable is unknown, or not an input type.
//! <https://spec.graphql.org/October2021/#sec-Variables-Are-Input-Types>
//!
//! At fault: `query A($d: Dog) { search(filter: $d) { name } }`
//! No fault: `query A($f: Filter) { search(filter: $f) { name } }`
ghost use Rattle.std.specs.Prelude.{◌≡◌, ◌++◌, OnOk};
ghost use Rattle.gql_vars.specs.V26VariablesAreInputTypes as spec;

use crate::p04_float_variables::is_float;
use gql_ast::{Fault, FilePlace, Rule, VariableDefinition};
use gql_facts::World;
use gql_faults::named_type;
use gql_rules::{add_fault_of, kind_of};
use gql_types::TypeKind;
use std::alloc::{AllocError, Global};

/// Whether a type of this kind is known and an input type (GraphQL specification, 3.4.2).
fn is_input(kind: Option<TypeKind>) -> bool
    ensures { result ≡ spec.is_input kind }
{
    match kind {
        Some(TypeKind::Scalar | TypeKind::Enum | TypeKind::InputObject) => true,
        Some(TypeKind::Object | TypeKind::Interface | TypeKind::Union) | None => false,
    }
}

/// Adds the fault of a variable.
pub fn check<W: World>(
    alloc: Global,
    world: &mut W,
    owner: &FilePlace,
    variable: &VariableDefinition,
    faults: &mut Vec<Fault>,
) -> Result<(), AllocError>
    ensures facts { W.facts world.new ≡ W.facts world.old }
    ensures names { W.names world.new ≡ W.names world.old }
    ensures lent { W.lent world.new ≡ W.lent world.old }
    ensures found { OnOk result (faults.new.items ≡ faults.old.items
        ++ spec.faults (W.facts world.old) owner.now variable.now) }
{
    let name = named_type(&variable.of_type);
    let kind = kind_of(alloc, world, &name.text)?;
    if !is_float(name.as_str()) && !is_input(kind) {
        add_fault_of(alloc, owner, Rule::V26, name, faults)?;
    }
    Ok(())
}
