//! Objects and lists of the data, and nodes of introspection, that are to be entered.
ghost use Rattle.std.specs.Prelude.{◌≡◌, List, ℕ, true, Ok, IfOk};
ghost use Rattle.gql_inputs.specs.InputTypes.{name_in as name_of_type};
ghost use Rattle.gql_types.specs.Written.{written};
ghost use Rattle.gql_steps.specs.Execution as spec;
ghost use Rattle.gql_steps.specs.Execution.{Plan};
ghost use Rattle.gql_deep.specs.Frames.{DoesValue, Enters, Fits, Kept, KeepsReached, object_in};
ghost use Rattle.gql_steps.specs.Objects.{basis};
ghost use Rattle.gql_steps.specs.Plans.{Basis, IsPlan, is_met, types_of};
ghost use Rattle.gql_steps.specs.States.{path_of};
ghost use Rattle.gql_steps.specs.Tables.{InTable, IsRight, below_at};
ghost use Rattle.gql_steps.specs.Texts.{value_part};
ghost use Rattle.gql_steps.specs.ValueParts as part;
ghost use Rattle.gql_steps.specs.ValueParts.{data_items};
ghost use Rattle.gql_steps.specs.declared.run.Run.{Run as ARun};
ghost use Rattle.gql_steps.specs.declared.table.Table.{Table as ATable};

use crate::frames::{AnyObject, FieldsFrame, Group, ItemsFrame, Reached};
use gql_ast::TypeRef;
use gql_steps::ended::Ended;
use gql_steps::items::DataItems;
use gql_steps::setting::Setting;
use gql_steps::site::Site;
use gql_steps::table::{Slot, Table};
use std::alloc::{AllocError, Global};

/// An object of a type, with those of its fields that are selected below a field.
pub fn object_below<'d, 'v>(
    alloc: Global,
    setting: &Setting<'d, '_>,
    table: &mut Table<'d>,
    slot: Slot,
    of_type: &str,
    object: AnyObject<'d, 'v>,
) -> Result<Group<'d, 'v>, AllocError>
    requires right { IsRight (basis setting.now) table.old }
    requires within { InTable table.old slot }
    ensures keeps { IfOk result (λ group. (now : ARun)
        → Kept (basis setting.now) table.old table.new 0 now now (Fits table.new group)) }
    ensures enters { IfOk result (λ group. (now : ARun) (name : List ℕ)
        → is_met (basis setting.now) of_type.now name ≡ true
        → (x : Plan) → IsPlan (basis setting.now) name (below_at table.old slot) x
        → Enters (basis setting.now) table.new group (value_part (spec.execute
        (types_of (basis setting.now)) x of_type.now (path_of now)
        (object_in object.entry))) now) }
{
    let entry = table.at(alloc, setting, slot, of_type)?;
    Ok(Group::Fields(FieldsFrame {
        entry,
        object,
        next: 0,
        ended: Ended::Written,
    }))
}

/// A list of the data, each item of which is at this type.
pub fn items_below<'d, 'v>(site: Site, item: &'d TypeRef, items: DataItems<'v>) -> Reached<'d, 'v>
    ensures keeps { (g : Basis) (t : ATable) (now : ARun) → IsRight g t → InTable t site.slot
        → KeepsReached g t t now now (Ok result) }
    ensures does { (g : Basis) (t : ATable) (now : ARun) → InTable t site.slot
        → DoesValue g t site (name_of_type (written item.now)) (below_at t site.slot)
        (λ s. part.list_part (written item.now) s (data_items items.entry) (path_of now))
        (Ok result) now now }
{
    Reached::Inner(Group::Items(ItemsFrame {
        site,
        item,
        items,
        next: 0,
        ended: Ended::Written,
    }))
}
