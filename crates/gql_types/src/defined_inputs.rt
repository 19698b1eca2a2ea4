//! Arguments and input fields as they are defined (GraphQL specification, 3.6.1 and 3.10): in their
//! order, by their names, and the required ones.
ghost use Rattle.std.specs.Prelude.{◌≡◌, ◌<◌, Bool, List, Some, IfOk, map, filter, find, length, bytes_eq, slice_get};
ghost use Rattle.std.specs.Option.{option_copied};

use crate::named::{HasName, Named};
use std::alloc::{AllocError, Global};
use std::marker::Model;

/// An argument or an input field, as it is defined.
pub trait DefinedInput: HasName {
    ghost is_required: { Self → Bool };

    /// Whether it is required: it is Non-Null and has no default value.
    fn is_required(&self) -> bool
        ensures { result ≡ is_required self.now };
}

/// Arguments or input fields in their order, with a look-up of the first of a name, and of the
/// required ones. Contracts see the list of all.
pub struct DefinedInputs<T: DefinedInput> {
    all: Named<T>,
    required: Vec<usize>,
}

impl<T: DefinedInput + Drop> Drop for DefinedInputs<T> {
    fn drop(self) {
        let DefinedInputs {
            all: _,
            required: _,
        } = self;
    }
}

impl<T: DefinedInput> Model for DefinedInputs<T> {
    ghost use Rattle.std.specs.Prelude.{◌≡◌, List, Some, map, filter, slice_get};
    ghost use Rattle.std.specs.Coded.{coded_list};

    ghost Value = { List T };

    ghost coded = { coded_list T.code };

    ghost view = { λ n. n.all };

    ghost invariant = { λ n. map (λ i. slice_get n.all i) n.required.items
        ≡ map Some (filter T.is_required n.all) };
}

/// The indices of the required inputs, in their order.
fn required_places<T: DefinedInput>(alloc: Global, inputs: &[T]) -> Result<Vec<usize>, AllocError>
    ensures { IfOk result (λ places. map (λ i. slice_get inputs.now i) places.items
        ≡ map Some (filter T.is_required inputs.now)) }
{
    let mut places = Vec::new(alloc);
    for place in 0..inputs.len() {
        if inputs[place].is_required() {
            places.push(place)?;
        }
    }
    Ok(places)
}

impl<T: DefinedInput + Drop> DefinedInputs<T> {
    /// These inputs, in their order.
    pub fn new(alloc: Global, inputs: Vec<T>) -> Result<DefinedInputs<T>, AllocError>
        ensures { IfOk result (λ defined. defined ≡ inputs.items) }
    {
        let required = required_places(alloc, inputs.as_slice())?;
        let all = Named::new(alloc, inputs)?;
        Ok(DefinedInputs { all, required })
    }

    /// The same inputs, which both share.
    pub fn copy(&self) -> Result<DefinedInputs<T>, AllocError>
        ensures { IfOk result (λ copy. copy ≡ self.now) }
    {
        Ok(DefinedInputs {
            all: self.all.copy()?,
            required: self.required.clone()?,
        })
    }
}

impl<T: DefinedInput> DefinedInputs<T> {
    /// All of them, in their order.
    pub fn as_slice(&self) -> &[T]
        ensures { result.now ≡ self.now }
    {
        self.all.as_slice()
    }

    /// The first of that name.
    pub fn get(&self, name: &str) -> Option<&T>
        ensures { option_copied result ≡ find (λ x. bytes_eq name.now (T.name x)) self.now }
    {
        self.all.get(name)
    }

    /// How many of them are required.
    pub fn required_count(&self) -> usize
        ensures { result ≡ length (filter T.is_required self.now) }
    {
        self.required.len()
    }

    /// The required one at an index, in their order.
    pub fn required_at(&self, index: usize) -> &T
        requires { index < length (filter T.is_required self.now) }
        ensures { slice_get (filter T.is_required self.now) index ≡ Some result.now }
    {
        &self.all.as_slice()[self.required[index]]
    }
}
