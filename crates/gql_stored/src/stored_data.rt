//! The data that operations are executed on, and what is added to them.
ghost use Rattle.std.specs.Prelude.{◌≡◌, ℕ, List, IfOk, map};
ghost use Rattle.std.specs.List.{AllByRecursion};
ghost use Rattle.serde_json.specs.View.{view};
ghost use Rattle.gql_stored.specs.Changes.{IfList, HasRoom};
ghost use Rattle.gql_stored.specs.Effects.{after};
ghost use Rattle.gql_stored.specs.Rooms.{effect_of, effects_of, IsEmptyRoom, IsCovered, IsPreparedFor, count_to};

use crate::additions::{Additions, Room};
use crate::change::{Change, data_with};
use crate::effect::Effect;
use crate::rooms::rooms_for;
use gql_coerce::take_apart;
use serde_json::Value;
use std::alloc::{AllocError, Global};
use std::marker::Model;
use std::mem;

/// The data that operations are executed on. They nest as deep as memory allows, and are dropped
/// without recursion.
pub struct StoredData {
    value: Value,
}

impl Model for StoredData {
    ghost use Rattle.serde_json.specs.contracts.value.Value as json_value;
    ghost use Rattle.serde_json.specs.declared.value.Value.{Value as AValue};
    ghost use Rattle.std.specs.Coded.{codes};

    ghost Value = { AValue };

    ghost coded = { Prim.hlevel (codes, json_value.the_row.coded) };

    ghost view = { λ d. d.value };
}

impl Drop for StoredData {
    fn drop(self) {
        let StoredData { value } = self;
        take_apart(value);
    }
}

/// The data, with each list in the room that there is for it.
fn with_rooms(stored: Value, rooms: Vec<Room>) -> Value
    requires { AllByRecursion IsEmptyRoom rooms.items }
    ensures value { view result ≡ view stored }
    ensures room { (to : List ℕ) (n : ℕ) → IsCovered stored rooms.items to n
        → IfList to (HasRoom n) result }
{
    let mut stored = stored;
    for room in rooms {
        let Room { to, buffer } = room;
        stored = data_with(stored, to.as_str(), Change::Move(buffer));
    }
    stored
}

/// The data after these effects.
fn with_effects(stored: Value, effects: Vec<Effect>) -> Value
    requires { (to : List ℕ) → IfList to (HasRoom (count_to to effects.items)) stored }
    ensures { view result ≡ after (map effect_of effects.items) (view stored) }
{
    let mut stored = stored;
    for effect in effects {
        let (to, value) = effect.into_parts();
        stored = data_with(stored, to.as_str(), Change::Add(value));
    }
    stored
}

impl StoredData {
    /// These data.
    pub fn new(value: Value) -> StoredData
        ensures { result ≡ value }
    {
        StoredData { value }
    }

    /// The data.
    pub fn get(&self) -> &Value
        ensures { result.now ≡ self.now }
    {
        &self.value
    }

    /// Makes room for these effects. The data are not changed.
    pub fn prepare(&self, alloc: Global, effects: Vec<Effect>) -> Result<Additions, AllocError>
        ensures effects { IfOk result (λ a. effects_of a ≡ map effect_of effects.items) }
        ensures room { IfOk result (λ a. IsPreparedFor self.now a) }
    {
        let rooms = rooms_for(alloc, &self.value, effects.as_slice())?;
        Ok(Additions { rooms, effects })
    }

    /// Adds these effects, one after the other. It takes no memory.
    pub fn commit(&mut self, additions: Additions)
        requires { IsPreparedFor self.old additions }
        ensures { view self.new ≡ after (effects_of additions) (view self.old) }
    {
        let (rooms, effects) = additions.into_parts();
        let stored = mem::replace(&mut self.value, Value::Null);
        self.value = with_effects(with_rooms(stored, rooms), effects);
    }
}
