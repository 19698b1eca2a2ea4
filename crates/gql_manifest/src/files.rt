//! The files that manifests are made into.

ghost use Rattle.std.specs.Prelude.{◌≡◌, ◌++◌, ◌<◌, ◌∷◌, [], IfErr, IfOk, MatchOption, OnOk, map, string_bytes};
ghost use Rattle.gql_manifest.specs.Entries.{IsJson, IsNoJson};
ghost use Rattle.gql_manifest.specs.Files as spec;
ghost use Rattle.gql_manifest.specs.Gathering.{operation_of};
ghost use Rattle.gql_manifest.specs.Packing.{texts_of};
ghost use Rattle.gql_manifest.specs.Reading.{GathersAll, GathersManifest, IsManifestFault, IsManifestsFault};
ghost use Rattle.serde_json.specs.View.{view};

use crate::bucket::BUCKETS;
use crate::entries::entries_of;
use crate::fault::ManifestFault;
use crate::fragments::KeptFragments;
use crate::gathered::{Gathered, GatheredOperation};
use crate::packing::packed;
use crate::texts::text_from;
use gql_ast::Text;
use gql_folder::GivenFile;
use indexmap::IndexMap;
use serde_json::Value;
use std::alloc::{AllocError, Global};

/// The greatest number of bytes of a file.
const MAX_FILE_BYTES: usize = 65_536;

/// The greatest number of operations that are files of their own.
const MAX_OWN_FILES: usize = 128;

/// A manifest that is given: its path, and its bytes.
#[derive(Drop)]
pub struct GivenManifest {
    pub path: String,
    pub bytes: Vec<u8>,
}

/// A file that is made of manifests, and what it is made of, in words.
#[derive(Drop)]
pub struct MadeFile {
    pub file: GivenFile,
    pub source: String,
}

/// The files that manifests are made into, and how many operations and fragments they have.
#[derive(Drop)]
pub struct FromManifests {
    pub files: Vec<MadeFile>,
    pub operations: usize,
    pub fragments: usize,
}

/// The JSON of a manifest. None if it is none.
fn json_in(alloc: Global, bytes: &[u8]) -> Result<Option<Value>, AllocError>
    ensures { IfOk result (λ found. MatchOption found (IsNoJson bytes.now)
        (λ value. IsJson bytes.now (view value))) }
{
    match Value::from_slice(alloc, bytes) {
        Ok(value) => Ok(Some(value)),
        Err(error) => {
            if error.is_memory() {
                Err(AllocError)
            } else {
                Ok(None)
            }
        }
    }
}

/// Adds the operations and fragments of a manifest.
fn add_manifest(
    alloc: Global,
    manifest: &GivenManifest,
    gathered: &mut Gathered,
) -> Result<(), ManifestFault>
    ensures ok { OnOk result (GathersManifest manifest.now gathered.old gathered.new) }
    ensures err { IfErr result (IsManifestFault manifest.now gathered.old) }
{
    let path = manifest.path.as_str();
    let Some(value) = json_in(alloc, manifest.bytes.as_slice())? else {
        let path = String::from_str(alloc, path)?;
        return Err(ManifestFault::NotJson { path });
    };
    let Some(entries) = entries_of(alloc, &value)? else {
        let path = String::from_str(alloc, path)?;
        return Err(ManifestFault::NoManifest { path });
    };
    for entry in entries.as_slice() {
        gathered.add_entry(alloc, path, entry)?;
    }
    Ok(())
}

/// The path of the first, the second .. file of this stem.
fn path_of(alloc: Global, stem: &str, at: usize) -> Result<String, AllocError>
    requires { at < usize.MAX }
    ensures { IfOk result (λ path. string_bytes path ≡ spec.path_of stem.now at) }
{
    if at == 0 {
        return text_from(alloc, &["documents/", stem, ".graphql"]);
    }
    let number = at + 1;
    format!(in alloc; "documents/{stem}-{number}.graphql")
}

/// Adds the files of these texts, which have one stem and are made of what `source` says.
fn add_texts(
    alloc: Global,
    stem: &str,
    source: &str,
    texts: Vec<Vec<u8>>,
    files: &mut Vec<MadeFile>,
) -> Result<(), AllocError>
    ensures { OnOk result (spec.files_of files.new.items ≡ spec.files_of files.old.items
        ++ spec.files_from stem.now source.now (texts_of texts.items)) }
{
    let mut at = 0;
    for bytes in texts {
        let path = path_of(alloc, stem, at)?;
        files.push(MadeFile {
            file: GivenFile { path, bytes },
            source: String::from_str(alloc, source)?,
        })?;
        at += 1;
    }
    Ok(())
}

/// Adds the file of an operation.
fn add_operation(
    alloc: Global,
    name: &Text,
    operation: GatheredOperation,
    files: &mut Vec<MadeFile>,
) -> Result<(), AllocError>
    ensures { OnOk result (spec.files_of files.new.items ≡ spec.files_of files.old.items
        ++ spec.own_file (operation_of (name.now, operation)) ∷ []) }
{
    let GatheredOperation {
        origin,
        bytes,
        bucket: _,
    } = operation;
    files.push(MadeFile {
        file: GivenFile {
            path: path_of(alloc, name.as_str(), 0)?,
            bytes,
        },
        source: origin.text(alloc)?,
    })?;
    Ok(())
}

/// These texts without their last bytes: the empty line after the last operation goes.
fn without_last_bytes(alloc: Global, texts: Vec<Vec<u8>>) -> Result<Vec<Vec<u8>>, AllocError>
    ensures { IfOk result
        (λ shorter. texts_of shorter.items ≡ map spec.without_last (texts_of texts.items)) }
{
    let mut shorter = Vec::new(alloc);
    for text in texts {
        let mut text = text;
        text.pop();
        shorter.push(text)?;
    }
    Ok(shorter)
}

/// The texts of the files of the operations in a bucket, which an empty line separates.
fn bucket_texts(
    alloc: Global,
    operations: &IndexMap<Text, GatheredOperation>,
    bucket: usize,
) -> Result<Vec<Vec<u8>>, AllocError>
    ensures { IfOk result (λ texts. spec.AreBucketTexts
        (spec.texts_in bucket (map operation_of operations.now.entries)) (texts_of texts.items)) }
{
    let mut pieces = Vec::new(alloc);
    for (_name, operation) in operations.iter() {
        if operation.bucket == bucket {
            pieces.push(operation.bytes.as_slice())?;
        }
    }
    without_last_bytes(alloc, packed(alloc, pieces.as_slice(), MAX_FILE_BYTES + 1)?)
}

/// Adds the files of the buckets that have operations, in the order of their numbers.
fn add_buckets(
    alloc: Global,
    operations: &IndexMap<Text, GatheredOperation>,
    files: &mut Vec<MadeFile>,
) -> Result<(), AllocError>
    ensures { OnOk result
        (spec.Adds (spec.AreBuckets (map operation_of operations.now.entries) 96)
        files.old.items files.new.items) }
{
    for bucket in 0..BUCKETS {
        let texts = bucket_texts(alloc, operations, bucket)?;
        let (tens, ones) = ((bucket + 1) / 10, (bucket + 1) % 10);
        let stem = format!(in alloc; "operations-{tens}{ones}")?;
        add_texts(
            alloc,
            stem.as_str(),
            "operations of manifests",
            texts,
            files,
        )?;
    }
    Ok(())
}

/// Adds the files of operations: each of its own, unless they are many.
fn add_operations(
    alloc: Global,
    operations: IndexMap<Text, GatheredOperation>,
    files: &mut Vec<MadeFile>,
) -> Result<(), AllocError>
    ensures { OnOk result
        (spec.Adds (spec.AreOperationFiles (map operation_of operations.entries))
        files.old.items files.new.items) }
{
    if operations.len() > MAX_OWN_FILES {
        return add_buckets(alloc, &operations, files);
    }
    for (name, operation) in operations {
        add_operation(alloc, &name, operation, files)?;
    }
    Ok(())
}

/// Adds the files of the fragments of all manifests.
fn add_fragments(
    alloc: Global,
    fragments: &KeptFragments,
    files: &mut Vec<MadeFile>,
) -> Result<(), AllocError>
    ensures { OnOk result (spec.Adds (spec.AreFragmentFiles fragments.now)
        files.old.items files.new.items) }
{
    let texts = fragments.texts(alloc, MAX_FILE_BYTES)?;
    let source = "the fragments of manifests";
    add_texts(alloc, "shared-fragments", source, texts, files)
}

/// The operations and fragments of all manifests.
fn gathered_from(alloc: Global, manifests: &[GivenManifest]) -> Result<Gathered, ManifestFault>
    ensures ok { IfOk result (GathersAll manifests.now) }
    ensures err { IfErr result (IsManifestsFault manifests.now) }
{
    let mut gathered = Gathered::new(alloc);
    for manifest in manifests {
        add_manifest(alloc, manifest, &mut gathered)?;
    }
    Ok(gathered)
}

/// The files that manifests are made into: `documents/NAME.graphql` for each operation, or if there
/// are more than 128 `documents/operations-01.graphql` to `-96` for those of a bucket each, and
/// `documents/shared-fragments.graphql` for the fragments of all.
pub fn files_of(alloc: Global, manifests: &[GivenManifest]) -> Result<FromManifests, ManifestFault>
    ensures ok { IfOk result (spec.IsMadeOf manifests.now) }
    ensures err { IfErr result (IsManifestsFault manifests.now) }
{
    let Gathered {
        operations,
        fragments,
    } = gathered_from(alloc, manifests)?;
    let (operation_count, fragment_count) = (operations.len(), fragments.len());
    let mut files = Vec::new(alloc);
    add_operations(alloc, operations, &mut files)?;
    add_fragments(alloc, &fragments, &mut files)?;
    Ok(FromManifests {
        files,
        operations: operation_count,
        fragments: fragment_count,
    })
}
