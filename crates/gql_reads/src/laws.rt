//! Laws over what definitions read, with no code.
ghost use Rattle.std.specs.Prelude.{◌↔◌, ◌⊎◌};
ghost use Rattle.gql_ast.specs.declared.definition.Definition.{Definition};
ghost use Rattle.gql_facts.specs.Reads.{Reaches, Reads};
ghost use Rattle.gql_facts.specs.Worlds.{Facts};
ghost use Rattle.gql_facts.specs.declared.fact.FragmentFact.{FragmentFact};
ghost use Rattle.gql_facts.specs.declared.key.Key.{Key};
ghost use Rattle.gql_reads.specs.Own.{Own, tree_of};

/// What a definition reads is what it reads by itself, and what each fragment that it reaches reads
/// by itself.
pub fn reads_are_shared()
    ensures { (facts : Facts) → (d : Definition) → (k : Key) → Reads facts d k
        ↔ (Own facts d.tree k ⊎ ((g : FragmentFact) × Reaches facts d g × Own facts (tree_of g) k)) }
{}
