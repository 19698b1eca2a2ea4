//! The rules on nodes in groups, by what each group visits.
ghost use Rattle.std.specs.Prelude.{◌≡◌, ◌++◌, OnOk};
ghost use Rattle.gql_node_rules.specs.Borrowed.{lists};
ghost use Rattle.gql_node_rules.specs.NodeFaults as spec;
ghost use Rattle.gql_node_rules.specs.Resolved.{of_all, role_faults, roles, to_float, unknown};

use crate::defined_names::defined_names;
use crate::nodes::Nodes;
use crate::references::References;
use crate::{
    p01_float_references, s03_reserved_names, s16_non_input_types, s20_unknown_types,
    s21_non_output_types, s22_non_object_members, s35_deprecated_required_inputs,
    s36_misplaced_appends,
};
use gql_ast::Fault;
use gql_types::Schema;
use std::alloc::{AllocError, Global};

/// S03.
pub fn check_names(
    alloc: Global,
    nodes: &Nodes<'_>,
    faults: &mut Vec<Fault>,
) -> Result<(), AllocError>
    ensures { OnOk result (faults.new.items ≡ faults.old.items
        ++ spec.name_faults (lists nodes.now)) }
{
    let names = defined_names(alloc, nodes)?;
    s03_reserved_names::check(alloc, names.as_slice(), faults)?;
    Ok(())
}

/// S16, S21 and S22.
pub fn check_roles(
    alloc: Global,
    references: &References<'_>,
    faults: &mut Vec<Fault>,
) -> Result<(), AllocError>
    ensures { OnOk result (faults.new.items ≡ faults.old.items
        ++ role_faults (roles references.now)) }
{
    s16_non_input_types::check(alloc, references.inputs.as_slice(), faults)?;
    s21_non_output_types::check(alloc, references.outputs.as_slice(), faults)?;
    s22_non_object_members::check(alloc, references.members.as_slice(), faults)?;
    Ok(())
}

/// S20.
pub fn check_known(
    alloc: Global,
    references: &References<'_>,
    faults: &mut Vec<Fault>,
) -> Result<(), AllocError>
    ensures { OnOk result (faults.new.items ≡ faults.old.items
        ++ of_all unknown (roles references.now)) }
{
    s20_unknown_types::check(alloc, references.inputs.as_slice(), faults)?;
    s20_unknown_types::check(alloc, references.outputs.as_slice(), faults)?;
    s20_unknown_types::check(alloc, references.interfaces.as_slice(), faults)?;
    s20_unknown_types::check(alloc, references.members.as_slice(), faults)?;
    s20_unknown_types::check(alloc, references.roots.as_slice(), faults)?;
    Ok(())
}

/// P01.
pub fn check_floats(
    alloc: Global,
    references: &References<'_>,
    faults: &mut Vec<Fault>,
) -> Result<(), AllocError>
    ensures { OnOk result (faults.new.items ≡ faults.old.items
        ++ of_all to_float (roles references.now)) }
{
    p01_float_references::check(alloc, references.inputs.as_slice(), faults)?;
    p01_float_references::check(alloc, references.outputs.as_slice(), faults)?;
    p01_float_references::check(alloc, references.interfaces.as_slice(), faults)?;
    p01_float_references::check(alloc, references.members.as_slice(), faults)?;
    p01_float_references::check(alloc, references.roots.as_slice(), faults)?;
    Ok(())
}

/// S35 and S36.
pub fn check_built_in_directives(
    alloc: Global,
    schema: &Schema,
    nodes: &Nodes<'_>,
    faults: &mut Vec<Fault>,
) -> Result<(), AllocError>
    ensures { OnOk result (faults.new.items ≡ faults.old.items
        ++ spec.built_in_directive_faults (lists nodes.now) schema.now) }
{
    s35_deprecated_required_inputs::check(alloc, nodes, faults)?;
    s36_misplaced_appends::check(alloc, schema, nodes, faults)?;
    Ok(())
}
