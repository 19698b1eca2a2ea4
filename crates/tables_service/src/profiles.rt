//! Profiles by their names, and texts as names of files.
use gql_ast::{FileName, Profile};
use std::alloc::Global;

/// A text as the name of a file, in the profile where none is named.
pub fn file_name(alloc: Global, text: &str) -> Option<FileName> {
    FileName::read(alloc, text, Profile::whole_numbers().limits.name).ok()?
}

/// The profile of this name.
pub fn profile_named(name: &str) -> Option<Profile> {
    match name {
        "whole-numbers" => Some(Profile::whole_numbers()),
        "october-2021" => Some(Profile::october_2021()),
        _ => None,
    }
}
