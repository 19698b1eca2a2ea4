//! How often names occur in a list.
ghost use Rattle.std.specs.Prelude.{◌≡◌, ℕ, List, IfOk, bytes_eq, count_by, nat_lt, unwrap_or};
ghost use Rattle.std.specs.HashMap as hash;
ghost use Rattle.gql_rules.specs.Parts as spec;

use gql_ast::{Argument, Directive, VariableDefinition};
use std::alloc::{AllocError, Global};
use std::collections::HashMap;

/// What has a name in an operation or a fragment.
pub trait IsNamed {
    ghost name: { Self → List ℕ };

    /// The name.
    fn name(&self) -> &str
        ensures { result.now ≡ name self.now };
}

impl IsNamed for Argument {
    ghost name = { spec.argument_name };

    fn name(&self) -> &str {
        self.name.as_str()
    }
}

impl IsNamed for Directive {
    ghost name = { spec.directive_name };

    fn name(&self) -> &str {
        self.name.as_str()
    }
}

impl IsNamed for VariableDefinition {
    ghost name = { λ v. v.name.text };

    fn name(&self) -> &str {
        self.name.as_str()
    }
}

/// How often each name occurs among these.
fn all_counts<'t, T: IsNamed>(
    alloc: Global,
    all: &'t [T],
) -> Result<HashMap<&'t str, usize>, AllocError>
    ensures { IfOk result (λ counts. (q : List ℕ) →
        unwrap_or (hash.get_by (λ k. bytes_eq q k.now) counts) 0
        ≡ count_by (λ x. bytes_eq q (T.name x)) all.now) }
{
    let mut counts = HashMap::new(alloc);
    for thing in all {
        let name = thing.name();
        let seen = counts.get(name).copied().unwrap_or(0);
        counts.insert(name, seen + 1)?;
    }
    Ok(counts)
}

/// Which names occur more than once among these. One thing is counted without a table.
pub fn counts<'t, T: IsNamed>(
    alloc: Global,
    all: &'t [T],
) -> Result<HashMap<&'t str, usize>, AllocError>
    ensures { IfOk result (λ counts. (q : List ℕ) →
        nat_lt 1 (unwrap_or (hash.get_by (λ k. bytes_eq q k.now) counts) 0)
        ≡ spec.is_repeated T.name all.now q) }
{
    if all.len() < 2 {
        return Ok(HashMap::new(alloc));
    }
    all_counts(alloc, all)
}

/// Whether a name occurs more than once, by these counts.
pub fn is_repeated(counts: &HashMap<&str, usize>, name: &str) -> bool
    ensures { result
        ≡ nat_lt 1 (unwrap_or (hash.get_by (λ k. bytes_eq name.now k.now) counts.now) 0) }
{
    counts.get(name).copied().unwrap_or(0) > 1
}
