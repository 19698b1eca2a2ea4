//! Values that are made together and lie side by side. They share one count of owners, so that a
//! list of them is copied without a look at any.

ghost use Rattle.std.specs.Prelude.{◌≡◌, ◌++◌, ◌∷◌, [], IfOk, OnOk, Some};
ghost use Rattle.gql_types.specs.Batches.{AreFilled, HasValue, filled, value_of, values_of};

use gql_ast::Shared;
use std::alloc::{AllocError, Global};
use std::marker::Model;

/// Values that were made together; there is at least one.
struct Batch<T> {
    /// All but the last.
    others: Vec<T>,
    last: T,
}

impl<T: Drop> Drop for Batch<T> {
    fn drop(self) {
        let Batch { others: _, last: _ } = self;
    }
}

/// A value of a batch, which contracts see as the value. A clone costs no walk. All values of a
/// batch are freed together, with the last of their owners.
pub struct Batched<T> {
    batch: Shared<Batch<T>>,
    /// Where the value is among the others; past their end it is the last.
    place: usize,
}

impl<T: Drop> Drop for Batched<T> {
    fn drop(self) {
        let Batched { batch: _, place: _ } = self;
    }
}

impl<T> Model for Batched<T> {
    ghost use Rattle.std.specs.Prelude.{slice_get, unwrap_or};

    ghost Value = { T };

    ghost coded = { T.code };

    ghost view = { λ b. unwrap_or (slice_get b.batch.others.items b.place) b.batch.last };
}

impl<T> Batched<T> {
    /// The value.
    pub fn get(&self) -> &T
        ensures { result.now ≡ self.now }
    {
        let batch = self.batch.get();
        match batch.others.get(self.place) {
            Some(value) => value,
            None => &batch.last,
        }
    }
}

impl<T: Drop> Batched<T> {
    /// A batch of this value alone.
    pub fn new(alloc: Global, value: T) -> Result<Batched<T>, AllocError>
        ensures { IfOk result (λ b. b ≡ value) }
    {
        let batch = Batch {
            others: Vec::new(alloc),
            last: value,
        };
        Ok(Batched {
            batch: Shared::new(alloc, batch)?,
            place: 0,
        })
    }
}

impl<T: Drop> Clone for Batched<T> {
    ghost is_clone = { λ batched copy. copy ≡ batched };

    fn clone(&self) -> Result<Batched<T>, AllocError> {
        Ok(Batched {
            batch: self.batch.clone()?,
            place: self.place,
        })
    }
}

/// A value of a list in the making.
enum Slot<T> {
    /// One that is kept.
    Kept(Batched<T>),
    /// A new one, by its place among the new ones.
    Made(usize),
}

impl<T: Drop> Drop for Slot<T> {
    fn drop(self) {
        match self {
            Slot::Kept(_) => {}
            Slot::Made(_) => {}
        }
    }
}

impl<T: Drop> Slot<T> {
    /// The value, if it is kept.
    fn kept_value(self) -> Option<Batched<T>>
        ensures { result ≡ value_of [] self }
    {
        match self {
            Slot::Kept(value) => Some(value),
            Slot::Made(_) => None,
        }
    }

    /// The value, if the new ones are this batch.
    fn value(self, batch: &Shared<Batch<T>>) -> Result<Batched<T>, AllocError>
        requires { HasValue (values_of batch.now) self }
        ensures { IfOk result (λ value. Some value ≡ value_of (values_of batch.now) self) }
    {
        match self {
            Slot::Kept(value) => Ok(value),
            Slot::Made(place) => Ok(Batched {
                batch: batch.clone()?,
                place,
            }),
        }
    }
}

/// A list in the making, of values that are kept from another list and of new ones. Contracts see
/// the list of the values. The new ones become one batch.
pub struct BatchList<T> {
    /// The values, in their order.
    slots: Vec<Slot<T>>,
    /// The new ones, in their order.
    made: Vec<T>,
}

impl<T: Drop> Drop for BatchList<T> {
    fn drop(self) {
        let BatchList { slots: _, made: _ } = self;
    }
}

impl<T> Model for BatchList<T> {
    ghost use Rattle.std.specs.Prelude.{List};
    ghost use Rattle.std.specs.Coded.{coded_list};

    ghost Value = { List T };

    ghost coded = { coded_list T.code };

    ghost use Rattle.gql_types.specs.Batches.{AreFilled, filled};

    ghost view = { λ b. filled b.made.items b.slots.items };

    ghost invariant = { λ b. AreFilled b.made.items b.slots.items };
}

impl<T: Drop> BatchList<T> {
    /// No values yet; there is room for so many.
    pub fn with_capacity(alloc: Global, count: usize) -> Result<BatchList<T>, AllocError>
        ensures { IfOk result (λ list. list ≡ []) }
    {
        Ok(BatchList {
            slots: Vec::with_capacity(alloc, count)?,
            made: Vec::new(alloc),
        })
    }

    /// Adds a value that is kept.
    pub fn keep(&mut self, value: &Batched<T>) -> Result<(), AllocError>
        ensures { OnOk result (self.new ≡ self.old ++ value.now ∷ []) }
    {
        self.slots.push(Slot::Kept(value.clone()?))?;
        Ok(())
    }

    /// Adds a new value.
    pub fn add(&mut self, value: T) -> Result<(), AllocError>
        ensures { OnOk result (self.new ≡ self.old ++ value ∷ []) }
    {
        let place = self.made.len();
        self.made.push(value)?;
        self.slots.push(Slot::Made(place))?;
        Ok(())
    }

    /// The list. Its new values are one batch.
    pub fn finish(self, alloc: Global) -> Result<Vec<Batched<T>>, AllocError>
        ensures { IfOk result (λ list. list.items ≡ self) }
    {
        let BatchList { slots, mut made } = self;
        match made.pop() {
            Some(last) => {
                let batch = Shared::new(alloc, Batch { others: made, last })?;
                with_batch(alloc, slots, &batch)
            }
            None => kept_alone(alloc, slots),
        }
    }
}

/// The values that are kept.
fn kept_alone<T: Drop>(alloc: Global, slots: Vec<Slot<T>>) -> Result<Vec<Batched<T>>, AllocError>
    ensures { IfOk result (λ list. list.items ≡ filled [] slots.items) }
{
    let mut list = Vec::with_capacity(alloc, slots.len())?;
    for slot in slots {
        if let Some(value) = slot.kept_value() {
            list.push(value)?;
        }
    }
    Ok(list)
}

/// The values that are kept, and the new ones of a batch.
fn with_batch<T: Drop>(
    alloc: Global,
    slots: Vec<Slot<T>>,
    batch: &Shared<Batch<T>>,
) -> Result<Vec<Batched<T>>, AllocError>
    requires { AreFilled (values_of batch.now) slots.items }
    ensures { IfOk result (λ list. list.items ≡ filled (values_of batch.now) slots.items) }
{
    let mut list = Vec::with_capacity(alloc, slots.len())?;
    for slot in slots {
        list.push(slot.value(batch)?)?;
    }
    Ok(list)
}
