//! Lists and objects that are not complete yet. Their parts may nest deep, and are dropped without
//! recursion.
ghost use Rattle.std.specs.Prelude.{◌≡◌, ◌+◌, ◌-◌, ◌^◌, ◌++◌, ◌∷◌, [], OnOk, length, max, min, string_bytes};
ghost use Rattle.serde_json.specs.Data.{put, array, object};
ghost use Rattle.serde_json.specs.View.{view, items_view, members_view};

use crate::coerced_value::CoercedValue;
use crate::taking_apart::{drop_of_levels, take_apart};
use serde_json::{Map, Value};
use std::alloc::{AllocError, Global};
use std::marker::Model;

/// The levels of a list or an object whose parts so far make it `levels`, with one more part, which
/// has `part`.
fn levels_with(levels: usize, part: usize) -> usize
    ensures { result ≡ max levels (min (part + 1) (2 ^ 64 - 1)) }
{
    levels.max(part.saturating_add(1))
}

/// The items that a list has so far.
pub struct CoercedItems {
    values: Vec<Value>,
    /// How many levels the list has at most, itself included.
    levels: usize,
}

impl Model for CoercedItems {
    ghost use Rattle.std.specs.Prelude.{List};
    ghost use Rattle.serde_json.specs.contracts.value.Value as json_value;
    ghost use Rattle.serde_json.specs.declared.value.Value.{Value as AValue};
    ghost use Rattle.serde_json.specs.Data.{array};
    ghost use Rattle.serde_json.specs.View.{items_view};
    ghost use Rattle.std.specs.Coded.{codes};
    ghost use Rattle.gql_coerce.specs.Nesting.{NestsWithin};

    ghost Value = { List AValue };

    ghost coded = { Prim.hlevel (codes, json_value.the_row.coded) };

    ghost view = { λ l. l.values.items };

    ghost invariant = { λ l. NestsWithin (array (items_view l.values.items)) l.levels };
}

impl Drop for CoercedItems {
    fn drop(self) {
        let CoercedItems { values, levels } = self;
        drop_of_levels(Value::from(values), levels);
    }
}

impl CoercedItems {
    /// No items.
    pub fn new(alloc: Global) -> CoercedItems
        ensures { result ≡ [] }
    {
        CoercedItems {
            values: Vec::new(alloc),
            levels: 1,
        }
    }

    /// Adds an item.
    pub fn push(&mut self, item: CoercedValue) -> Result<(), AllocError>
        ensures { OnOk result (self.new ≡ self.old ++ item ∷ []) }
    {
        self.levels = levels_with(self.levels, item.levels());
        match self.values.push(item.into_value()) {
            Ok(()) => Ok(()),
            Err(failed) => {
                take_apart(failed.value);
                Err(AllocError)
            }
        }
    }

    /// How many items it has.
    pub fn len(&self) -> usize
        ensures { result ≡ length self.now }
    {
        self.values.len()
    }

    /// The list of these items.
    pub fn into_value(self) -> CoercedValue
        ensures { view result ≡ array (items_view self) }
    {
        let CoercedItems { values, levels } = self;
        CoercedValue::of_levels(Value::from(values), levels)
    }
}

/// The members that an object has so far.
pub struct CoercedMembers {
    values: Map<String, Value>,
    /// How many levels the object has at most, itself included.
    levels: usize,
}

impl Model for CoercedMembers {
    ghost use Rattle.std.specs.Prelude.{List, String};
    ghost use Rattle.std.specs.Global.{Global};
    ghost use Rattle.serde_json.specs.contracts.value.Value as json_value;
    ghost use Rattle.serde_json.specs.declared.value.Value.{Value as AValue};
    ghost use Rattle.serde_json.specs.Data.{object};
    ghost use Rattle.serde_json.specs.View.{members_view};
    ghost use Rattle.std.specs.Coded.{codes};
    ghost use Rattle.gql_coerce.specs.Nesting.{NestsWithin};

    ghost Value = { List (String Global × AValue) };

    ghost coded = { Prim.hlevel (codes, json_value.the_row.coded) };

    ghost view = { λ o. o.values.entries };

    ghost invariant = { λ o. NestsWithin (object (members_view o.values.entries)) o.levels };
}

impl Drop for CoercedMembers {
    fn drop(self) {
        let CoercedMembers { values, levels } = self;
        drop_of_levels(Value::from(values), levels);
    }
}

impl CoercedMembers {
    /// No members.
    pub fn new(alloc: Global) -> CoercedMembers
        ensures { result ≡ [] }
    {
        CoercedMembers {
            values: Map::new(alloc),
            levels: 1,
        }
    }

    /// Adds a member, in place of one of that name.
    #[tactic(auto, using(crate::proofs::Inserted::inserted))]
    pub fn insert(&mut self, name: String, value: CoercedValue) -> Result<(), AllocError>
        ensures { OnOk result (members_view self.new
            ≡ put (string_bytes name) (view value) (members_view self.old)) }
    {
        self.levels = levels_with(self.levels, value.levels());
        match self.values.insert(name, value.into_value()) {
            Ok(Some(before)) => {
                take_apart(before);
                Ok(())
            }
            Ok(None) => Ok(()),
            Err(failed) => {
                let (_, value) = failed.value;
                take_apart(value);
                Err(AllocError)
            }
        }
    }

    /// The object of these members.
    pub fn into_value(self) -> CoercedValue
        ensures { view result ≡ object (members_view self) }
    {
        let CoercedMembers { values, levels } = self;
        CoercedValue::of_levels(Value::from(values), levels)
    }
}
