//! What a mutation adds to the data.
ghost use Rattle.std.specs.Prelude.{◌≡◌};

use gql_coerce::CoercedValue;

/// An effect of a mutation: a value that is to be added at the end of a list of the data, which
/// their member `query` has under this name.
pub struct Effect {
    pub to: String,
    pub value: CoercedValue,
}

impl Drop for Effect {
    fn drop(self) {
        let Effect { to: _, value: _ } = self;
    }
}

impl Effect {
    /// The name of the list, and the value.
    pub(crate) fn into_parts(self) -> (String, CoercedValue)
        ensures { result ≡ (self.to, self.value) }
    {
        let Effect { to, value } = self;
        (to, value)
    }
}
