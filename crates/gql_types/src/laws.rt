//! Laws on schemas, as contracts of functions that do nothing. A caller that needs one calls it.
ghost use Rattle.std.specs.Prelude.{List, ℕ, Some, None};
ghost use Rattle.gql_ast.specs.FileMaps.{file_named};
ghost use Rattle.gql_ast.specs.declared.definition.Document.{Document};
ghost use Rattle.gql_ast.specs.declared.files.Files.{Files};
ghost use Rattle.gql_types.specs.Edits.{KeepsOthers, edited_names, with_schema, without_schema};
ghost use Rattle.gql_types.specs.Schemas.{schema_of};

/// A schema file that is put changes no types but those that it defines or extends, or that the
/// file of its name before it did.
pub fn put_schema_file()
    ensures { (files : Files) → (name : List ℕ) → (document : Document)
        → KeepsOthers (edited_names (file_named files.schema name) (Some document))
        (schema_of files) (schema_of (with_schema files name document)) }
{}

/// A schema file that is removed changes no types but those that it defined or extended.
pub fn remove_schema_file()
    ensures { (files : Files) → (name : List ℕ)
        → KeepsOthers (edited_names (file_named files.schema name) None)
        (schema_of files) (schema_of (without_schema files name)) }
{}
