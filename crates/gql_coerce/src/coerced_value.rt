//! The value that an input comes to.
ghost use Rattle.std.specs.Prelude.{◌≡◌, IfOk};
ghost use Rattle.serde_json.specs.View.{view};
ghost use Rattle.gql_coerce.specs.Nesting.{NestsWithin};

use crate::copies::copy_of;
use crate::taking_apart::{drop_of_levels, levels_of};
use serde_json::Value;
use std::alloc::{AllocError, Global};
use std::marker::Model;

/// The value that an input comes to. It nests as deep as memory allows: one of many levels is
/// dropped without recursion, and without an allocation.
pub struct CoercedValue {
    value: Value,
    /// How many levels of lists and objects it has at most.
    levels: usize,
}

impl Model for CoercedValue {
    ghost use Rattle.serde_json.specs.contracts.value.Value as json_value;
    ghost use Rattle.serde_json.specs.declared.value.Value.{Value as AValue};
    ghost use Rattle.serde_json.specs.View.{view as data_of};
    ghost use Rattle.std.specs.Coded.{codes};
    ghost use Rattle.gql_coerce.specs.Nesting.{NestsWithin};

    ghost Value = { AValue };

    ghost coded = { Prim.hlevel (codes, json_value.the_row.coded) };

    ghost view = { λ v. v.value };

    ghost invariant = { λ v. NestsWithin (data_of v.value) v.levels };
}

impl Drop for CoercedValue {
    fn drop(self) {
        let CoercedValue { value, levels } = self;
        drop_of_levels(value, levels);
    }
}

impl CoercedValue {
    /// The same value.
    pub fn new(value: Value) -> CoercedValue
        ensures { result ≡ value }
    {
        let levels = levels_of(&value);
        CoercedValue { value, levels }
    }

    /// A list or an object that has at most this many levels.
    pub(crate) fn of_levels(value: Value, levels: usize) -> CoercedValue
        requires { NestsWithin (view value) levels }
        ensures { result ≡ value }
    {
        CoercedValue { value, levels }
    }

    /// The value.
    pub fn get(&self) -> &Value
        ensures { result.now ≡ self.now }
    {
        &self.value
    }

    /// How many levels of lists and objects it has at most.
    pub(crate) fn levels(&self) -> usize
        ensures { NestsWithin (view self.now) result }
    {
        self.levels
    }

    /// A copy of the value, which is made without recursion.
    pub fn copied(&self, alloc: Global) -> Result<CoercedValue, AllocError>
        ensures { IfOk result (λ copy. view copy ≡ view self.now) }
    {
        copy_of(alloc, &self.value)
    }

    /// The value itself. As such it is dropped with recursion, unless `take_apart` takes it.
    pub fn into_value(self) -> Value
        ensures { result ≡ self }
    {
        let CoercedValue { value, levels: _ } = self;
        value
    }
}
