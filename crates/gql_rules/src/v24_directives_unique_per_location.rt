//! V24, Directives Are Unique per Location: a directive that is not repeatable is applied twice.
//! <https://spec.graphql.org/October2021/#sec-Directives-Are-Unique-Per-Location>
//!
//! At fault: `{ dog { name @skip(if: true) @skip(if: false) } }`
//! No fault: `{ dog { name @tag(name: "a") @tag(name: "b") } }`
ghost use Rattle.std.specs.Prelude.{◌≡◌, ◌++◌, ◌∷◌, ◌&&◌, not, [], OnOk, if◌then◌else◌};
ghost use Rattle.std.specs.Option.{option_copied};
ghost use Rattle.gql_ast.specs.declared.rule.Rule.TheVariants as rule;
ghost use Rattle.gql_facts.specs.declared.fact.DirectiveFact.{DirectiveFact as AFact};
ghost use Rattle.gql_faults.specs.Faults.{where_known};
ghost use Rattle.gql_rules.specs.Faults.{fault_at};

use crate::faults::add_fault;
use gql_ast::{Directive, Fault, FilePlace, Rule};
use gql_facts::DirectiveFact;
use std::alloc::{AllocError, Global};

/// Adds the fault of a directive, if it is known, not repeatable, and occurs more than once in its
/// list.
pub fn check(
    alloc: Global,
    owner: &FilePlace,
    directive: &Directive,
    is_repeated: bool,
    known: Option<&DirectiveFact>,
    faults: &mut Vec<Fault>,
) -> Result<(), AllocError>
    ensures { OnOk result (faults.new.items ≡ faults.old.items
        ++ where_known (option_copied known.entry) (λ (d : AFact).
        if not d.is_repeatable && is_repeated
        then fault_at owner.now rule.V24 directive.now.name.text directive.now.place ∷ []
        else [])) }
{
    let Some(known) = known else {
        return Ok(());
    };
    if !known.is_repeatable && is_repeated {
        let about = &directive.name.text;
        add_fault(alloc, owner, Rule::V24, about, directive.place, faults)?;
    }
    Ok(())
}
