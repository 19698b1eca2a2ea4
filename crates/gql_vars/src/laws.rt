//! Laws over the faults of an operation by the rules on variables, with no code.
ghost use Rattle.std.specs.Prelude.{◌↔◌};
ghost use Rattle.gql_ast.specs.declared.definition.Definition.{Definition};
ghost use Rattle.gql_ast.specs.declared.fault.Fault.{Fault};
ghost use Rattle.gql_facts.specs.Reads.{Agree};
ghost use Rattle.gql_facts.specs.Worlds.{Facts};
ghost use Rattle.gql_vars.specs.VariableFaults.{IsVariableFault};

/// The faults by the rules on variables depend only on what the definition reads: facts that agree
/// there give the same faults, both ways.
pub fn same_variable_faults()
    ensures { (v u : Facts) → (d : Definition) → Agree v u d
        → (f : Fault) → IsVariableFault v d f ↔ IsVariableFault u d f }
{}
