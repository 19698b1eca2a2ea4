//! The fields of a type beside those of its interfaces. An interface that the type lists twice has its
//! pairs of fields once.
ghost use Rattle.std.specs.Prelude.{◌≡◌, ◌↔◌, ◌++◌, ◌∷◌, [], List, Contains, IfOk, OnOk, map, flat_map, is_some, bytes_eq};
ghost use Rattle.std.specs.HashMap as hash;
ghost use Rattle.gql_ast.specs.declared.text.Name.{Name as AName};
ghost use Rattle.gql_built_in.specs.declared.sited.Sited.{Sited as ASited};
ghost use Rattle.gql_iface_rules.specs.Borrowed.{pair};
ghost use Rattle.gql_iface_rules.specs.Implementing.{implementations_of, pairs_of, FieldPair as APair};
ghost use Rattle.gql_iface_rules.specs.Pairing as spec;

use crate::implementing::{FieldPair, Implementation, add_pairs, interface_named};
use gql_ast::Name;
use gql_built_in::Sited;
use gql_types::{Schema, SchemaType};
use std::alloc::{AllocError, Global};
use std::collections::HashMap;

/// Adds the pairs of fields of a type and of the interface of a name, if an interface has the name.
fn add_named<'s>(
    schema: &'s Schema,
    of_type: &'s SchemaType,
    name: &'s Sited<Name>,
    pairs: &mut Vec<FieldPair<'s>>,
) -> Result<(), AllocError>
    ensures { OnOk result (map pair pairs.new.items ≡ map pair pairs.old.items
        ++ spec.pairs_by schema.now of_type.now name.now) }
{
    if let Some(interface) = interface_named(schema, name.node.as_str()) {
        let implementation = Implementation {
            of_type,
            name,
            interface,
        };
        add_pairs(&implementation, pairs)?;
    }
    Ok(())
}

/// Adds the pairs of fields of a type and of the interface of a name, unless the name was met.
fn add_once<'s>(
    schema: &'s Schema,
    of_type: &'s SchemaType,
    name: &'s Sited<Name>,
    met: &mut HashMap<&'s str, ()>,
    pairs: &mut Vec<FieldPair<'s>>,
) -> Result<(), AllocError>
    ensures { OnOk result ((before : List (ASited AName)) → spec.IsPaired schema.now of_type.now before
        (λ q. is_some (hash.get_by (λ k. bytes_eq q k.now) met.old)) (map pair pairs.old.items)
        → spec.IsPaired schema.now of_type.now (before ++ name.now ∷ [])
        (λ q. is_some (hash.get_by (λ k. bytes_eq q k.now) met.new)) (map pair pairs.new.items)) }
{
    if met.contains_key(name.node.as_str()) {
        return Ok(());
    }
    add_named(schema, of_type, name, pairs)?;
    met.insert(name.node.as_str(), ())?;
    Ok(())
}

/// The fields of the interfaces that a type implements, each with the type's field of its name.
pub fn pairs_of_type<'s>(
    alloc: Global,
    schema: &'s Schema,
    of_type: &'s SchemaType,
) -> Result<Vec<FieldPair<'s>>, AllocError>
    ensures { IfOk result (λ pairs. (p : APair) → Contains (map pair pairs.items) p
        ↔ Contains (flat_map pairs_of (implementations_of schema.now of_type.now)) p) }
{
    let mut met = HashMap::new(alloc);
    let mut pairs = Vec::new(alloc);
    for name in of_type.interfaces.as_slice() {
        add_once(schema, of_type, name, &mut met, &mut pairs)?;
    }
    Ok(pairs)
}
