//! Laws over the faults of one definition, with no code.
ghost use Rattle.std.specs.Prelude.{◌≡◌, ◌↔◌, ℕ, List};
ghost use Rattle.gql_ast.specs.declared.definition.Definition.{Definition};
ghost use Rattle.gql_ast.specs.declared.fault.Fault.{Fault};
ghost use Rattle.gql_ast.specs.declared.files.Files.{Files};
ghost use Rattle.gql_types.specs.Schemas.{schema_of};
ghost use Rattle.gql_facts.specs.Facts.{fact_of};
ghost use Rattle.gql_facts.specs.Reads.{Agree};
ghost use Rattle.gql_facts.specs.Worlds.{Facts};
ghost use Rattle.gql_inputs.specs.Lookups.{in_schema};
ghost use Rattle.gql_rules.specs.KnownInputs.{known_inputs};
ghost use Rattle.gql_rules.specs.LocalFaults.{IsFault};

/// The faults of a definition depend only on what it reads: facts that agree there give the same
/// faults, both ways.
pub fn same_faults()
    ensures { (v u : Facts) → (d : Definition) → Agree v u d
        → (f : Fault) → IsFault v d f ↔ IsFault u d f }
{}

/// A name is the same input type for the rules on operations and for those on schemas, whether it
/// comes from the answers of files or from their schema. So the same value at the same type has the
/// same faults as an argument in an operation and as a default value in a schema.
pub fn same_inputs()
    ensures { (files : Files) → (name : List ℕ)
        → known_inputs (fact_of files) name ≡ in_schema (schema_of files) name }
{}
