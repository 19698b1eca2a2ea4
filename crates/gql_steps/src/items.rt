//! The items of lists.
ghost use Rattle.std.specs.Prelude.{◌≡◌, ◌<◌, length, map};
ghost use Rattle.std.proofs.Common.{get_or};
ghost use Rattle.serde_json.specs.View.{view};
ghost use Rattle.gql_steps.specs.ValueParts.{data_items, items_in};

use serde_json::Value;

/// The items of a list: those of a list of the data, or those that arguments keep.
#[derive(Clone, Copy)]
pub struct ListItems<'a, 'v> {
    pub all: &'v [Value],
    /// Empty, unless arguments keep items.
    pub kept: &'a [&'v Value],
}

impl<'a, 'v> ListItems<'a, 'v> {
    /// All items of a list of the data.
    fn of_all(all: &'v [Value]) -> ListItems<'a, 'v>
        ensures { items_in result ≡ map view all.now }
    {
        ListItems { all, kept: &[] }
    }

    /// The items that arguments keep.
    fn of_kept(kept: &'a [&'v Value]) -> ListItems<'a, 'v>
        ensures { items_in result ≡ map (λ v. view v.now) kept.now }
    {
        ListItems { all: &[], kept }
    }

    /// How many items there are.
    pub fn count(&self) -> usize
        ensures { result ≡ length (items_in self.now) }
    {
        if self.kept.is_empty() {
            self.all.len()
        } else {
            self.kept.len()
        }
    }

    /// An item.
    pub fn item(&self, i: usize) -> &'v Value
        requires { i < length (items_in self.now) }
        ensures { view result.now ≡ get_or (items_in self.now) i (view result.now) }
    {
        if self.kept.is_empty() {
            &self.all[i]
        } else {
            self.kept[i]
        }
    }
}

/// The items of a list of the data.
#[derive(Drop)]
pub enum DataItems<'v> {
    /// All of them.
    All(&'v [Value]),
    /// Those that arguments keep.
    Kept(Vec<&'v Value>),
}

impl<'v> DataItems<'v> {
    /// The items, which stay where they are.
    pub fn as_items(&self) -> ListItems<'_, 'v>
        ensures { items_in result ≡ data_items self.now }
    {
        match self {
            DataItems::All(items) => ListItems::of_all(items),
            DataItems::Kept(items) => ListItems::of_kept(items.as_slice()),
        }
    }

    /// How many items there are.
    pub fn count(&self) -> usize
        ensures { result ≡ length (data_items self.now) }
    {
        self.as_items().count()
    }

    /// An item.
    pub fn item(&self, i: usize) -> &'v Value
        requires { i < length (data_items self.now) }
        ensures { view result.now ≡ get_or (data_items self.now) i (view result.now) }
    {
        self.as_items().item(i)
    }
}
