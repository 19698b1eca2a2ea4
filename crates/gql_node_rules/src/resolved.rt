//! Applied directives with their definitions, each looked up once for all rules.
ghost use Rattle.std.specs.Prelude.{◌≡◌, IfOk, map};
ghost use Rattle.gql_node_rules.specs.Borrowed.{application};
ghost use Rattle.gql_node_rules.specs.Resolved.{resolution, resolved_by};

use crate::applied::Applied;
use crate::signature::{Signature, signature_named};
use gql_types::Named;
use std::alloc::{AllocError, Global};

/// An applied directive, and its definition if it is known.
#[derive(Clone, Copy)]
pub struct Resolved<'a, 's, 't> {
    pub applied: Applied<'t>,
    pub signature: Option<&'a Signature<'s>>,
}

/// These applied directives, each with the first definition of its name.
pub fn all_resolved<'a, 's, 't>(
    alloc: Global,
    signatures: &'a Named<Signature<'s>>,
    all: &[Applied<'t>],
) -> Result<Vec<Resolved<'a, 's, 't>>, AllocError>
    ensures { IfOk result (λ found. map resolution found.items
        ≡ map (resolved_by (map (λ g. g.definition.now) signatures.now))
        (map application all.now)) }
{
    let mut found = Vec::with_capacity(alloc, all.len())?;
    for applied in all {
        found.push(Resolved {
            applied: *applied,
            signature: signature_named(signatures, applied.name()),
        })?;
    }
    Ok(found)
}
