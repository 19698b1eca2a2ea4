//! Laws over tables of pairs, with no code.
ghost use Rattle.std.specs.Prelude.{ℕ, List};
ghost use Rattle.gql_pairs.specs.Groups.{KeptGroup};
ghost use Rattle.gql_pairs.specs.Tables.{HasPair};

/// An entry for two names is one for the names in the other order.
pub fn pairs_have_no_order()
    ensures { (table : List KeptGroup) → (n m : List ℕ) → HasPair table n m → HasPair table m n }
{}
