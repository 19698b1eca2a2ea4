//! The order of the items of a list, and what can be looked for in it.
ghost use Rattle.std.specs.Prelude.{◌≡◌, ◌≤◌};
ghost use Rattle.std.specs.Cmp.{IsTotalOrder};
ghost use Rattle.std.specs.Ordering.{ordering_index};
ghost use Rattle.std.specs.declared.cmp.Ordering.{Ordering as TheOrdering};
ghost use Rattle.std.specs.declared.cmp.Ordering.TheVariants.{Less};

use std::cmp::Ordering;

/// Something that has a place in a list. Two of them may have one place.
pub trait HasOrder {
    ghost order: { Self → Self → TheOrdering };

    /// The order of the places of two items.
    fn order_to(&self, other: &Self) -> Ordering
        ensures { result ≡ order self.now other.now };

    ghost total: { IsTotalOrder order };
}

/// What is looked for in a list. The places of the items that are found follow one another.
pub trait Probe<T: HasOrder> {
    ghost order: { Self → T → TheOrdering };

    /// The order of an item and of what is looked for.
    fn order_of(&self, item: &T) -> Ordering
        ensures { result ≡ order self.now item.now };

    ghost rises: { (p : Self) (x y : T) → T.order x y ≡ Less
        → ordering_index (order p x) ≤ ordering_index (order p y) };
}
