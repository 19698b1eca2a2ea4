//! The members of objects.
ghost use Rattle.std.specs.Prelude.{◌≡◌, OnOk};
ghost use Rattle.serde_json.specs.Data.{put};
ghost use Rattle.serde_json.specs.View.{view, members_view};

use crate::coerced_parts::CoercedMembers;
use crate::coerced_value::CoercedValue;
use std::alloc::{AllocError, Global};

/// Adds a member to an object, in place of one of that name.
pub fn add_member(
    alloc: Global,
    name: &str,
    value: CoercedValue,
    members: &mut CoercedMembers,
) -> Result<(), AllocError>
    ensures { OnOk result (members_view members.new
        ≡ put name.now (view value) (members_view members.old)) }
{
    let name = String::from_str(alloc, name)?;
    members.insert(name, value)
}
