//! Bytes that are put, read as a file of a side or as data.
ghost use Rattle.std.specs.Prelude.{◌≡◌, ◌||◌, true, IfErr, IfOk, IsUtf8, is_some, nat_lt, length};
ghost use Rattle.gql_ast.specs.FileMaps.{file_named};
ghost use Rattle.gql_registry.specs.DataBodies.{IsDataText, is_data as is_data_of};
ghost use Rattle.gql_registry.specs.Checks.{IsBadData, IsBadValue, IsRead, IsUnread};
ghost use Rattle.serde_json.specs.View.{view};

use crate::data::{DataFault, data_in, is_data};
use crate::refusal::Refusal;
use crate::sides::{limit_on, parse_on};
use gql_ast::{Document, FileMap, FileName, FileSide, Profile, Shared};
use serde_json::Value;
use std::alloc::Global;
use std::str;

/// Whether a file of that name has room, where there may be `most` files of its kind.
pub fn has_room(files: &FileMap<Shared<Document>>, name: &FileName, most: usize) -> bool
    ensures { result ≡ (is_some (file_named files.now name.now) || nat_lt (length files.now) most) }
{
    files.has(name) || files.len() < most
}

/// Reads bytes as a file of a side, within the limit of the profile. The refusals are 203, 202 and
/// 201, in this order.
pub fn read_file(
    alloc: Global,
    profile: Profile,
    side: FileSide,
    name: &FileName,
    bytes: &[u8],
) -> Result<Document, Refusal>
    ensures read { IfOk result (IsRead profile side name.now bytes.now) }
    ensures err { IfErr result (IsUnread profile side name.now bytes.now) }
{
    let limit = limit_on(profile, side);
    if bytes.len() > limit {
        return Err(Refusal::TooLong);
    }
    let Ok(text) = str::from_utf8(bytes) else {
        return Err(Refusal::NotText);
    };
    let name = name.copy()?;
    let document = parse_on(alloc, side, name, text)?;
    Ok(document)
}

/// Reads bytes as data under the profile. The refusals are 202 and 207, in this order.
pub fn read_data(alloc: Global, profile: Profile, bytes: &[u8]) -> Result<Value, Refusal>
    ensures read { IfOk result (λ v. IsUtf8 bytes.now × IsDataText profile bytes.now (view v)) }
    ensures err { IfErr result (IsBadData profile bytes.now) }
{
    let Ok(text) = str::from_utf8(bytes) else {
        return Err(Refusal::NotText);
    };
    match data_in(alloc, profile, text) {
        Ok(data) => Ok(data),
        Err(DataFault::Refused) => Err(Refusal::BadData),
        Err(DataFault::Memory) => Err(Refusal::Memory),
    }
}

/// A copy of a value that is put as data under the profile. The refusal is 207.
pub fn copy_data(profile: Profile, value: &Value) -> Result<Value, Refusal>
    ensures copied { IfOk result (λ v. (is_data_of profile (view value.now) ≡ true)
        × (view v ≡ view value.now)) }
    ensures err { IfErr result (IsBadValue profile (view value.now)) }
{
    if !is_data(profile, value) {
        return Err(Refusal::BadData);
    }
    let data = value.clone()?;
    Ok(data)
}
