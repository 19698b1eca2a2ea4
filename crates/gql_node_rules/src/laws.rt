//! Laws on the faults of nodes, as contracts of functions that do nothing. A caller that needs one
//! calls it.
ghost use Rattle.std.specs.Prelude.{◌↔◌, ◌⊎◌, ℕ, List, Contains};
ghost use Rattle.gql_ast.specs.declared.definition.Document.{Document};
ghost use Rattle.gql_ast.specs.declared.fault.Fault.{Fault};
ghost use Rattle.gql_types.specs.Definitions.{of_files};
ghost use Rattle.gql_types.specs.declared.schema.Schema.{Schema};
ghost use Rattle.gql_node_rules.specs.FileFaults.{IsFileFault, joint_faults};
ghost use Rattle.gql_node_rules.specs.NodeFaults.{node_faults};
ghost use Rattle.gql_node_rules.specs.Nodes.{nodes_of};

/// The faults of the nodes of all schema files are those that a file has by itself, and those of
/// types and of the schema with their extensions.
pub fn node_faults_by_files()
    ensures { (files : List (List ℕ × Document)) → (s : Schema) → (f : Fault)
        → Contains (node_faults (nodes_of (of_files files)) s) f
        ↔ (IsFileFault files s f ⊎ Contains (joint_faults (nodes_of (of_files files)) s) f) }
{}
