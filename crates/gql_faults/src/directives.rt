//! The directives of a schema, each by its first definition.
ghost use Rattle.std.specs.Prelude.{◌≡◌, ◌++◌, ◌∷◌, [], ◌||◌, ℕ, List, IfOk, OnOk, map, is_some, bytes_eq, if◌then◌else◌};
ghost use Rattle.std.specs.HashMap as hash;
ghost use Rattle.gql_faults.specs.Directives.{first_directives};

use gql_ast::{DirectiveDefinition, Shared};
use gql_built_in::Sited;
use std::alloc::{AllocError, Global};
use std::collections::HashMap;

/// Adds a definition, unless its name was seen.
fn add_first<'d>(
    seen: &mut HashMap<&'d str, ()>,
    definition: &'d Sited<Shared<DirectiveDefinition>>,
    firsts: &mut Vec<&'d Sited<Shared<DirectiveDefinition>>>,
) -> Result<(), AllocError>
    ensures names { OnOk result ((q : List ℕ)
        → is_some (hash.get_by (λ k. bytes_eq q k.now) seen.new)
        ≡ (is_some (hash.get_by
        (λ k. bytes_eq q k.now) seen.old) || bytes_eq q definition.now.node.name.text)) }
    ensures firsts { OnOk result (map (λ d. d.now) firsts.new.items
        ≡ map (λ d. d.now) firsts.old.items
        ++ (if is_some (hash.get_by (λ k. bytes_eq definition.now.node.name.text k.now) seen.old)
        then [] else definition.now ∷ [])) }
{
    let name = definition.node.get().name.as_str();
    if !seen.contains_key(name) {
        seen.insert(name, ())?;
        firsts.push(definition)?;
    }
    Ok(())
}

/// The first definition of each directive, in their order.
pub fn first_directives(
    alloc: Global,
    definitions: &[Sited<Shared<DirectiveDefinition>>],
) -> Result<Vec<&Sited<Shared<DirectiveDefinition>>>, AllocError>
    ensures { IfOk result
        (λ firsts. map (λ d. d.now) firsts.items ≡ first_directives definitions.now) }
{
    let mut seen = HashMap::new(alloc);
    let mut firsts = Vec::new(alloc);
    for definition in definitions {
        add_first(&mut seen, definition, &mut firsts)?;
    }
    Ok(firsts)
}
