//! All faults of a schema, with what an edit of a schema file can keep of them: the check of each
//! schema file.
ghost use Rattle.std.specs.Prelude.{◌≡◌, ◌↔◌, ◌++◌, ℕ, List, IfOk, OnOk, Contains};
ghost use Rattle.gql_ast.specs.declared.fault.Fault.{Fault as TheFault};
ghost use Rattle.gql_ast.specs.declared.files.Files.{Files as TheFiles};
ghost use Rattle.gql_iface_rules.specs.Quiet.{IsFound, types_named};
ghost use Rattle.gql_node_rules.specs.SchemaChanges.{IsChange};
ghost use Rattle.gql_types.specs.Edits.{KeepsOthers};
ghost use Rattle.gql_types.specs.Schemas.{schema_of};
ghost use Rattle.gql_types.specs.declared.schema.Schema.{Schema as TheSchema};
ghost use Rattle.gql_schema_rules.specs.ChecksOfFiles.{AreChecksOf, DiffersAt};
ghost use Rattle.gql_schema_rules.specs.KeptFaults.{AreFaultsOf};
ghost use Rattle.gql_schema_rules.specs.OtherFaults.{AreOthers, faults_in};
ghost use Rattle.gql_schema_rules.specs.SchemaFaults.{FaultsBy, IsSchemaFault};
ghost use Rattle.gql_schema_rules.specs.TypesToCheck.{AreEnough};

use crate::file_checks::{checks_after_edit, checks_of};
use crate::other_faults::{
    OtherFaults, TypesToCheck, keeps_defaults, keeps_joint, other_faults, types_to_check,
};
use crate::types_among::types_among;
use gql_ast::{Fault, FileMap, FileName, Files, Shared, Text};
use gql_iface_rules::{Found, Quiet, iface_faults_after_edit, iface_faults_of};
use gql_node_rules::{FileCheck, SchemaChange, laws};
use gql_types::{Batched, Named, Schema, SchemaType};
use std::alloc::{AllocError, Global};

/// All faults of a schema, and the checks of its files.
pub struct SchemaFaults {
    /// The check of each schema file, under the name of the file.
    checks: FileMap<Shared<FileCheck>>,
    /// The faults. One may occur more than once.
    all: Vec<Shared<Fault>>,
    /// Whether none of them is by S31 on a type with its extensions.
    are_joint_sound: bool,
    /// Whether none of them is by S05 to S08 or S18.
    are_types_sound: bool,
    /// Which rules on interfaces and cycles find nothing.
    quiet: Quiet,
}

impl Drop for SchemaFaults {
    fn drop(self) {
        let SchemaFaults {
            checks: _,
            all: _,
            are_joint_sound: _,
            are_types_sound: _,
            quiet: _,
        } = self;
    }
}

/// Adds faults that are shared.
fn add_shared(faults: &[Shared<Fault>], all: &mut Vec<Shared<Fault>>) -> Result<(), AllocError>
    ensures { OnOk result (all.new.items ≡ all.old.items ++ faults.now) }
{
    for fault in faults {
        all.push(fault.clone()?)?;
    }
    Ok(())
}

/// Adds the faults of checks.
fn add_checked(
    checks: &FileMap<Shared<FileCheck>>,
    all: &mut Vec<Shared<Fault>>,
) -> Result<(), AllocError>
    ensures { OnOk result (all.new.items ≡ all.old.items ++ faults_in checks.now) }
{
    for (_name, check) in checks.entries().iter() {
        add_shared(check.get().faults(), all)?;
    }
    Ok(())
}

/// Adds new faults.
fn add_new(
    alloc: Global,
    faults: Vec<Fault>,
    all: &mut Vec<Shared<Fault>>,
) -> Result<(), AllocError>
    ensures { OnOk result (all.new.items ≡ all.old.items ++ faults.items) }
{
    for fault in faults {
        all.push(Shared::new(alloc, fault)?)?;
    }
    Ok(())
}

/// All faults, by the checks of the files and the faults that are found for all files together.
fn all_faults(
    alloc: Global,
    checks: &FileMap<Shared<FileCheck>>,
    others: Vec<Fault>,
) -> Result<Vec<Shared<Fault>>, AllocError>
    ensures { IfOk result (λ all. (files : TheFiles) → (s : TheSchema)
        → AreChecksOf s files.schema checks.now → AreOthers files s others.items
        → (f : TheFault) → Contains all.items f ↔ FaultsBy files s f) }
{
    laws::node_faults_by_files();
    let mut all = Vec::new(alloc);
    add_checked(checks, &mut all)?;
    add_new(alloc, others, &mut all)?;
    Ok(all)
}

/// The types that may be at fault after an edit that changed these types alone. If no type was at
/// fault by a rule, the edited ones are enough for it; for S31 only if the directives are the same, and
/// for S18 only if the input types are.
fn types_after_edit<'t>(
    schema: &'t Schema,
    edited: &'t [Batched<SchemaType>],
    change: &SchemaChange,
    before: &SchemaFaults,
) -> TypesToCheck<'t>
    ensures { (names : List (List ℕ)) → (old : TheFiles)
        → edited.entry.now ≡ types_named names schema.entry.now
        → AreFaultsOf old before.now → KeepsOthers names (schema_of old) schema.entry.now
        → IsChange change.now (schema_of old) schema.entry.now
        → AreEnough schema.entry.now result }
{
    let all = schema.types();
    let keeps_joint = keeps_joint(before.are_joint_sound, change);
    let were_sound = before.are_types_sound;
    let keeps_defaults = keeps_defaults(were_sound, change);
    TypesToCheck {
        joint: types_to_check(keeps_joint, edited, all),
        own: types_to_check(were_sound, edited, all),
        defaulted: types_to_check(keeps_defaults, edited, all),
    }
}

impl SchemaFaults {
    /// All faults of the schema of these files, by the checks of the files, by those of the rules on
    /// interfaces and cycles, and by the rules on types on these types: those that may be at fault.
    fn with_checks(
        alloc: Global,
        files: &Files,
        schema: &Schema,
        checks: FileMap<Shared<FileCheck>>,
        found: Found,
        types: &TypesToCheck<'_>,
    ) -> Result<SchemaFaults, AllocError>
        requires { schema.now ≡ schema_of files.now }
        ensures { IfOk result (λ k. AreChecksOf schema.now files.now.schema checks
            → IsFound schema.now found → AreEnough schema.now types.now
            → AreFaultsOf files.now k) }
    {
        let Found {
            faults: interfaces,
            quiet,
        } = found;
        let others = other_faults(alloc, files, schema, &checks, interfaces, types)?;
        let OtherFaults {
            faults,
            are_joint_sound,
            are_types_sound,
        } = others;
        let all = all_faults(alloc, &checks, faults)?;
        Ok(SchemaFaults {
            checks,
            all,
            are_joint_sound,
            are_types_sound,
            quiet,
        })
    }

    /// All faults of the schema of these files. The schema is what `assemble` makes of the files.
    pub fn new(alloc: Global, files: &Files, schema: &Schema) -> Result<SchemaFaults, AllocError>
        requires { schema.now ≡ schema_of files.now }
        ensures { IfOk result (AreFaultsOf files.now) }
    {
        let checks = checks_of(alloc, files, schema)?;
        let found = iface_faults_of(alloc, schema)?;
        let all = schema.types();
        let types = TypesToCheck {
            joint: all,
            own: all,
            defaulted: all,
        };
        let faults = SchemaFaults::with_checks(alloc, files, schema, checks, found, &types)?;
        Ok(faults)
    }

    /// All faults after an edit of the schema file of this name, which changed types of these names
    /// alone, by the faults before it. The files and their schema are those after the edit. A file
    /// is checked again only if it is edited, or if the change of the schema matters to it. The rules on types check the types that may be at fault
    /// (`types_after_edit`), and so do the rules on interfaces and cycles (`iface_faults_after_edit`);
    /// `schema_before` is the schema before the edit.
    pub fn after_edit(
        alloc: Global,
        files: &Files,
        schema: &Schema,
        file: &FileName,
        edited: &Named<Text>,
        change: &SchemaChange,
        schema_before: &Schema,
        before: &SchemaFaults,
    ) -> Result<SchemaFaults, AllocError>
        requires { schema.now ≡ schema_of files.now }
        ensures { IfOk result (λ k. (old : TheFiles) → AreFaultsOf old before.now
            → schema_before.now ≡ schema_of old
            → KeepsOthers edited.now (schema_of old) schema.now
            → KeepsOthers edited.now schema.now (schema_of old)
            → IsChange change.now (schema_of old) schema.now
            → DiffersAt file.now old files.now → AreFaultsOf files.now k) }
    {
        let checks = checks_after_edit(alloc, files, schema, file, change, &before.checks)?;
        let among = types_among(alloc, schema, edited)?;
        let among = among.as_slice();
        let same = !change.directives;
        let were = before.quiet;
        let found = iface_faults_after_edit(
            alloc,
            schema_before,
            schema,
            edited,
            among,
            same,
            were,
        )?;
        let types = types_after_edit(schema, among, change, before);
        let faults = SchemaFaults::with_checks(alloc, files, schema, checks, found, &types)?;
        Ok(faults)
    }

    /// The faults. One may occur more than once.
    pub fn all(&self) -> &[Shared<Fault>]
        ensures { result.now ≡ self.now.all.items }
    {
        self.all.as_slice()
    }

    /// The faults alone. One may occur more than once.
    pub fn into_all(self) -> Vec<Shared<Fault>>
        ensures { result.items ≡ self.all.items }
    {
        let SchemaFaults {
            checks: _,
            all,
            are_joint_sound: _,
            are_types_sound: _,
            quiet: _,
        } = self;
        all
    }
}

/// The faults of the schema of these files, by all rules on schemas: none is missing and none is
/// invented. A fault may occur more than once. The schema is what `assemble` makes of the files.
pub fn schema_faults(
    alloc: Global,
    files: &Files,
    schema: &Schema,
) -> Result<Vec<Shared<Fault>>, AllocError>
    requires { schema.now ≡ schema_of files.now }
    ensures sound { IfOk result (λ faults. (f : TheFault)
        → Contains faults.items f → IsSchemaFault files.now f) }
    ensures complete { IfOk result (λ faults. (f : TheFault)
        → IsSchemaFault files.now f → Contains faults.items f) }
{
    let found = SchemaFaults::new(alloc, files, schema)?;
    Ok(found.into_all())
}
