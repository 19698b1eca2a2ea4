//! Laws of facts: contracts of functions that do nothing.
ghost use Rattle.gql_ast.specs.declared.definition.Definition.{Definition};
ghost use Rattle.gql_facts.specs.Reads.{Agree};
ghost use Rattle.gql_facts.specs.Views.{SameView};
ghost use Rattle.gql_facts.specs.Worlds.{Facts};

/// What a definition reaches, reads and sees depends on the keys that it reads alone: it is the
/// same with facts that agree on these keys, in both directions.
pub fn same_view()
    ensures { (v u : Facts) → (d : Definition) → Agree v u d → SameView v u d }
{}
