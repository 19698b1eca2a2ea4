//! A law over the faults by V30, with no code.
ghost use Rattle.std.specs.Prelude.{◌↔◌};
ghost use Rattle.gql_ast.specs.declared.definition.Definition.{Definition};
ghost use Rattle.gql_facts.specs.Reads.{Agree};
ghost use Rattle.gql_facts.specs.Worlds.{Facts};
ghost use Rattle.gql_single_root.specs.V30SingleRootField.{IsSingleRootFault};
ghost use Rattle.gql_single_root.specs.declared.fault.RootFault.{RootFault};

/// The faults by V30 depend only on what the definition reads: facts that agree there give the same
/// faults, both ways.
pub fn same_single_root_faults()
    ensures { (v u : Facts) → (d : Definition) → Agree v u d
        → (x : RootFault) → IsSingleRootFault v d x ↔ IsSingleRootFault u d x }
{}
