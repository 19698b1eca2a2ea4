//! Laws over the faults of one definition, and over edits of files, with no code.
ghost use Rattle.std.specs.Prelude.{◌≡◌, ◌↔◌, ℕ, List, None, Some};
ghost use Rattle.gql_ast.specs.FileMaps.{file_named};
ghost use Rattle.gql_ast.specs.declared.definition.Definition.{Definition};
ghost use Rattle.gql_ast.specs.declared.definition.Document.{Document};
ghost use Rattle.gql_ast.specs.declared.fault.Fault.{Fault};
ghost use Rattle.gql_ast.specs.declared.files.Files.{Files};
ghost use Rattle.gql_facts.specs.Reads.{Agree};
ghost use Rattle.gql_facts.specs.Tables.{tables_of};
ghost use Rattle.gql_facts.specs.Worlds.{Facts};
ghost use Rattle.gql_types.specs.Edits.{KeepsOthers};
ghost use Rattle.gql_types.specs.Schemas.{schema_of};
ghost use Rattle.gql_verdict.specs.DocumentEdits.{ChangesOnly, touched_by};
ghost use Rattle.gql_verdict.specs.DocumentEdits.{with_document, without_document};
ghost use Rattle.gql_verdict.specs.Faults.{IsFaultIn};
ghost use Rattle.gql_verdict.specs.SchemaEdits.{IsTouchedBySchema};
ghost use Rattle.gql_verdict.specs.declared.touched.Touched.{Touched as ATouched};

/// The faults of a definition by all rules on it depend only on what it reads: facts that agree
/// there give the same faults, both ways.
pub fn same_faults()
    ensures { (v u : Facts) → (d : Definition) → Agree v u d
        → (f : Fault) → IsFaultIn v d f ↔ IsFaultIn u d f }
{}

/// A document file that is put changes only the answers for the fragments that it has, or that the
/// file of its name had, and no definitions of other files.
pub fn put_document()
    ensures { (files : Files) → (name : List ℕ) → (document : Document)
        → ChangesOnly (touched_by name (file_named files.documents name) (Some document))
        files (with_document files name document) }
{}

/// A document file that is removed changes only the answers for the fragments that it had, and no
/// definitions of other files.
pub fn remove_document()
    ensures { (files : Files) → (name : List ℕ)
        → ChangesOnly (touched_by name (file_named files.documents name) None)
        files (without_document files name) }
{}

/// An edit of a schema file that changes types of these names alone changes only the answers that
/// `Touched::by_schema_edit` finds, and no definitions of document files.
pub fn edit_schema()
    ensures { (before after : Files) → (edited : List (List ℕ)) → (touched : ATouched)
        → KeepsOthers edited (schema_of before) (schema_of after)
        → KeepsOthers edited (schema_of after) (schema_of before)
        → before.documents ≡ after.documents
        → IsTouchedBySchema (tables_of (schema_of before)) (tables_of (schema_of after)) edited touched
        → ChangesOnly touched before after }
{}
