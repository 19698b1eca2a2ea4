//! Which edits a push makes.
ghost use Rattle.std.specs.Prelude.{◌≡◌, ◌++◌, [], ◌∷◌, IfOk, OnOk, bytes_eq, find, option_map, string_bytes};
ghost use Rattle.std.specs.Option.{option_copied};
ghost use Rattle.gql_push.specs.Plans as plans;
ghost use Rattle.gql_push.specs.Resources.{entries_at, entries_of, entry_at, entry_of, target_at};

use crate::sum::sum_of;
use gql_ast::FileSide;
use gql_folder::{GivenFile, Role, role_of};
use std::alloc::{AllocError, Global};

/// A file of a registry, as a resource: its target without the slash before it, as `schema/users`
/// or `data`; the sum of its bytes; and the index of its file.
#[derive(Drop)]
pub struct Resource {
    pub target: String,
    pub sum: String,
    pub file: usize,
}

/// One edit of a push.
#[derive(Drop)]
pub enum Edit {
    /// The file of a resource is put; the index of the resource.
    Put(usize),
    /// The file of a target that the folder no longer has is removed.
    Remove(String),
    /// The data that the folder no longer has is put in its first state, an empty object.
    EmptyData,
}

impl Edit {
    /// The target that the edit changes, where the resources of the push are these.
    pub fn target<'e>(&'e self, resources: &'e [Resource]) -> &'e str
        ensures { result.now
            ≡ plans.target_of (entries_of resources.now) (plans.change_of self.now) }
    {
        match self {
            Edit::Put(at) => match resources.get(*at) {
                Some(resource) => resource.target.as_str(),
                None => "",
            },
            Edit::Remove(target) => target.as_str(),
            Edit::EmptyData => "data",
        }
    }

    /// The resource that the edit puts, if it puts one, where the resources of the push are these.
    fn resource<'r>(&self, resources: &'r [Resource]) -> Option<&'r Resource>
        ensures { option_map entry_of (option_copied result)
            ≡ plans.put_by (entries_of resources.now) (plans.change_of self.now) }
    {
        match self {
            Edit::Put(at) => resources.get(*at),
            Edit::Remove(_) | Edit::EmptyData => None,
        }
    }
}

/// The target of the file at a path below a folder, if it is one of a registry where a name has at
/// most so many bytes.
fn target_of(alloc: Global, path: &str, most: usize) -> Result<Option<String>, AllocError>
    ensures { IfOk result (λ target. option_map (λ t. string_bytes t) target
        ≡ target_at most path.now) }
{
    let role = role_of(alloc, path, most)?;
    match role {
        Role::File(FileSide::Schema, name) => {
            let name = name.as_str();
            Ok(Some(format!(in alloc; "schema/{name}")?))
        }
        Role::File(FileSide::Documents, name) => {
            let name = name.as_str();
            Ok(Some(format!(in alloc; "documents/{name}")?))
        }
        Role::Data => Ok(Some(String::from_str(alloc, "data")?)),
        Role::Misnamed | Role::Other => Ok(None),
    }
}

/// The resource of a file with its index, if it is one of such a registry.
fn resource_of(
    alloc: Global,
    file: usize,
    given: &GivenFile,
    most: usize,
) -> Result<Option<Resource>, AllocError>
    ensures { IfOk result (λ resource. option_map entry_of resource
        ≡ entry_at most (file, given.now)) }
{
    match target_of(alloc, given.path.as_str(), most)? {
        Some(target) => {
            let sum = sum_of(alloc, given.bytes.as_slice())?;
            Ok(Some(Resource { target, sum, file }))
        }
        None => Ok(None),
    }
}

/// The resources of the files of a folder, for a registry where a name has at most so many bytes.
pub fn resources_of(
    alloc: Global,
    files: &[GivenFile],
    most: usize,
) -> Result<Vec<Resource>, AllocError>
    ensures { IfOk result (λ resources. entries_of resources.items
        ≡ entries_at most files.now) }
{
    let mut resources = Vec::new(alloc);
    for (file, given) in files.iter().enumerate() {
        if let Some(resource) = resource_of(alloc, file, given, most)? {
            resources.push(resource)?;
        }
    }
    Ok(resources)
}

/// The resource of a target among these.
fn find_target<'r>(resources: &'r [Resource], target: &str) -> Option<&'r Resource>
    ensures { option_copied result
        ≡ find (λ r. bytes_eq (string_bytes r.target) target.now) resources.now }
{
    resources
        .iter()
        .find(|resource| resource.target.as_str() == target)
}

/// Whether a resource was pushed as it is.
fn is_pushed(pushed: &[Resource], resource: &Resource) -> bool
    ensures { result ≡ plans.is_pushed (entries_of pushed.now) (entry_of resource.now) }
{
    match find_target(pushed, resource.target.as_str()) {
        Some(before) => before.sum == resource.sum,
        None => false,
    }
}

/// Whether a resource is to be put, if these were pushed last. With `all`, each one is.
fn is_to_put(pushed: &[Resource], resource: &Resource, all: bool) -> bool
    ensures { result ≡ plans.is_to_put all (entries_of pushed.now) (entry_of resource.now) }
{
    all || !is_pushed(pushed, resource)
}

/// Whether a pushed resource is gone: none of these has its target.
fn is_gone(resources: &[Resource], before: &Resource) -> bool
    ensures { result ≡ plans.is_gone (entries_of resources.now) (entry_of before.now) }
{
    find_target(resources, before.target.as_str()).is_none()
}

/// The edit by which a target goes: the data become an empty object, and a file is removed.
fn removal_of(alloc: Global, target: &str) -> Result<Edit, AllocError>
    ensures { IfOk result (λ edit. plans.change_of edit ≡ plans.removal_of target.now) }
{
    if target == "data" {
        Ok(Edit::EmptyData)
    } else {
        Ok(Edit::Remove(String::from_str(alloc, target)?))
    }
}

/// The edits that make the resources of a registry those of a folder, if these were pushed last.
/// With `all`, every resource is put.
pub fn plan(
    alloc: Global,
    resources: &[Resource],
    pushed: &[Resource],
    all: bool,
) -> Result<Vec<Edit>, AllocError>
    ensures { IfOk result (λ edits. plans.changes_of edits.items
        ≡ plans.planned (entries_of resources.now) (entries_of pushed.now) all) }
{
    let mut edits = Vec::new(alloc);
    for (at, resource) in resources.iter().enumerate() {
        if is_to_put(pushed, resource, all) {
            edits.push(Edit::Put(at))?;
        }
    }
    for before in pushed {
        if is_gone(resources, before) {
            edits.push(removal_of(alloc, before.target.as_str())?)?;
        }
    }
    Ok(edits)
}

/// Adds the resource of a target, with the sum of its bytes and the index of its file.
pub(crate) fn add_resource(
    alloc: Global,
    target: &str,
    sum: &str,
    file: usize,
    resources: &mut Vec<Resource>,
) -> Result<(), AllocError>
    ensures { OnOk result (entries_of resources.new.items ≡ entries_of resources.old.items
        ++ record { target = target.now; sum = sum.now; file = file } ∷ []) }
{
    resources.push(Resource {
        target: String::from_str(alloc, target)?,
        sum: String::from_str(alloc, sum)?,
        file,
    })?;
    Ok(())
}

/// The sum of a resource that is to be put again, whatever was pushed: no file has it.
const NO_SUM: &str = "-";

/// The resources that were pushed, as resources whose files are all to be put again.
pub fn to_put_again(alloc: Global, pushed: &[Resource]) -> Result<Vec<Resource>, AllocError>
    ensures { IfOk result (λ again. entries_of again.items
        ≡ plans.put_again (entries_of pushed.now)) }
{
    let mut again = Vec::new(alloc);
    for before in pushed {
        add_resource(
            alloc,
            before.target.as_str(),
            NO_SUM,
            before.file,
            &mut again,
        )?;
    }
    Ok(again)
}

/// Adds a resource that is equal to this one.
fn add_copy(
    alloc: Global,
    resource: &Resource,
    resources: &mut Vec<Resource>,
) -> Result<(), AllocError>
    ensures { OnOk result (entries_of resources.new.items
        ≡ entries_of resources.old.items ++ entry_of resource.now ∷ []) }
{
    let (target, sum) = (resource.target.as_str(), resource.sum.as_str());
    add_resource(alloc, target, sum, resource.file, resources)
}

/// Whether one of these edits changes this target.
fn is_edited(edits: &[Edit], resources: &[Resource], target: &str) -> bool
    ensures { result ≡ plans.is_changed (entries_of resources.now)
        (plans.changes_of edits.now) target.now }
{
    for edit in edits {
        if edit.target(resources) == target {
            return true;
        }
    }
    false
}

/// What is pushed once these edits of a push were made, if `pushed` was pushed before.
pub fn pushed_after(
    alloc: Global,
    resources: &[Resource],
    pushed: &[Resource],
    made: &[Edit],
) -> Result<Vec<Resource>, AllocError>
    ensures { IfOk result (λ after. entries_of after.items
        ≡ plans.after (entries_of resources.now) (entries_of pushed.now)
        (plans.changes_of made.now)) }
{
    let mut after = Vec::new(alloc);
    for before in pushed {
        if !is_edited(made, resources, before.target.as_str()) {
            add_copy(alloc, before, &mut after)?;
        }
    }
    for edit in made {
        if let Some(resource) = edit.resource(resources) {
            add_copy(alloc, resource, &mut after)?;
        }
    }
    Ok(after)
}
