//! Laws over what does not fit a type. The functions do nothing; their contracts hold.
ghost use Rattle.std.specs.Prelude.{◌≡◌};
ghost use Rattle.gql_types.specs.Written.{Written};
ghost use Rattle.gql_inputs.specs.Agreement.{Agree};
ghost use Rattle.gql_inputs.specs.BadValues.{bad_values_by};
ghost use Rattle.gql_inputs.specs.Lookups.{InputLookup};
ghost use Rattle.gql_inputs.specs.Values.{Value};

/// What of a value does not fit a type depends only on the names that the type leads to: look-ups
/// that agree on these find the same.
pub fn same_bad_values()
    ensures { (u v : InputLookup) → (t : Written) → Agree u v t
        → (x : Value) → bad_values_by u x t ≡ bad_values_by v x t }
{}

/// Agreement goes both ways: if two look-ups agree on the names that the type leads to by the
/// first, they agree on those that it leads to by the second.
pub fn agreement_is_mutual()
    ensures { (u v : InputLookup) → (t : Written) → Agree u v t → Agree v u t }
{}
