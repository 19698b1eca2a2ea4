//! Effects, and the memory that they take.
ghost use Rattle.std.specs.Prelude.{◌≡◌};

use crate::effect::Effect;
use serde_json::Value;

/// An empty buffer that the list of this name moves into.
#[derive(Drop)]
pub struct Room {
    pub to: String,
    pub buffer: Vec<Value>,
}

/// Effects, and the memory that they take. `StoredData::commit` adds them.
pub struct Additions {
    pub(crate) rooms: Vec<Room>,
    pub(crate) effects: Vec<Effect>,
}

impl Drop for Additions {
    fn drop(self) {
        let Additions {
            rooms: _,
            effects: _,
        } = self;
    }
}

impl Additions {
    /// The memory, and the effects.
    pub(crate) fn into_parts(self) -> (Vec<Room>, Vec<Effect>)
        ensures { result ≡ (self.rooms, self.effects) }
    {
        let Additions { rooms, effects } = self;
        (rooms, effects)
    }
}
