//! V22, Directives Are Defined: an applied directive is not defined.
//! <https://spec.graphql.org/October2021/#sec-Directives-Are-Defined>
//!
//! At fault: `{ dog { name @hidden } }`
//! No fault: `{ dog { name @skip(if: true) } }`
ghost use Rattle.std.specs.Prelude.{◌≡◌, ◌++◌, OnOk};
ghost use Rattle.std.specs.Option.{option_copied};
ghost use Rattle.gql_rules.specs.V22DirectivesAreDefined as spec;

use crate::faults::add_fault;
use gql_ast::{Directive, Fault, FilePlace, Rule};
use gql_facts::DirectiveFact;
use std::alloc::{AllocError, Global};

/// Adds the fault of a directive, if it is not known.
pub fn check(
    alloc: Global,
    owner: &FilePlace,
    directive: &Directive,
    known: Option<&DirectiveFact>,
    faults: &mut Vec<Fault>,
) -> Result<(), AllocError>
    ensures { OnOk result (faults.new.items ≡ faults.old.items
        ++ spec.faults owner.now directive.now (option_copied known.entry)) }
{
    match known {
        None => {
            let about = &directive.name.text;
            add_fault(alloc, owner, Rule::V22, about, directive.place, faults)
        }
        Some(_) => Ok(()),
    }
}
