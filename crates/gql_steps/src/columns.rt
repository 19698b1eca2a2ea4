//! Columns of a list of the data: for an argument, the prints of the member of its name of each
//! item. Where fields of one object filter a list by the same argument again, all but the first of
//! them pass over the items whose print differs.
ghost use Rattle.std.specs.Prelude.{◌≡◌, map, string_bytes, IfOk, IfSome, OnOk, IsTrue};
ghost use Rattle.serde_json.specs.Data.{Data};
ghost use Rattle.serde_json.specs.View.{members_view, view};
ghost use Rattle.gql_steps.specs.Columns as spec;
ghost use Rattle.gql_steps.specs.Resolution.{member_or_null};

use crate::filter::Test;
use crate::prints::{mixed, print_of, print_of_member};
use gql_ast::Shared;
use gql_coerce::CoercedValue;
use serde_json::{Map, Value};
use std::alloc::{AllocError, Global};

/// A list of fewer items is filtered without columns.
const FEWEST_ITEMS: usize = 64;

/// How many columns an object has at most.
const MOST_COLUMNS: usize = 32;

/// The prints of the member of this name of the items of a list, which is a member of an object.
#[derive(Drop)]
pub struct Column {
    list: String,
    name: String,
    prints: Vec<u64>,
}

/// The columns of one object of the data, and what its fields have filtered once.
#[derive(Drop)]
pub struct Columns {
    noted: Vec<u64>,
    columns: Vec<Column>,
}

/// A print of two names. It only says whether a column is made.
fn print_of_names(list: &str, name: &str) -> u64 {
    let mut print = 0;
    for byte in list.as_bytes() {
        print = mixed(print, *byte);
    }
    for byte in name.as_bytes() {
        print = mixed(print, *byte);
    }
    print
}

/// The prints of the member of this name of each item.
fn prints_in(alloc: Global, name: &str, items: &[Value]) -> Result<Vec<u64>, AllocError>
    ensures { IfOk result (λ prints. prints.items ≡ spec.prints_in name.now (map view items.now)) }
{
    let mut prints = Vec::with_capacity(alloc, items.len())?;
    for item in items {
        prints.push(print_of_member(item, name))?;
    }
    Ok(prints)
}

impl Column {
    /// Whether it is the column of that name of that list.
    fn is_of(&self, list: &str, name: &str) -> bool
        ensures { IsTrue result → (string_bytes self.now.list ≡ list.now)
            × (string_bytes self.now.name ≡ name.now) }
    {
        self.list.as_str() == list && self.name.as_str() == name
    }
}

impl Columns {
    /// No columns.
    pub fn new(alloc: Global) -> Columns
        ensures { (object : Data) → spec.AreColumnsOf object result }
    {
        Columns {
            noted: Vec::new(alloc),
            columns: Vec::new(alloc),
        }
    }

    /// The prints of the member of this name of the items of a list, if there is a column of them.
    fn prints(&self, list: &str, name: &str) -> Option<&[u64]>
        ensures { IfSome result (λ prints. (object : Data) → spec.AreColumnsOf object self.now
            → prints.now ≡ spec.prints_in name.now
            (spec.items_in (member_or_null list.now object))) }
    {
        for column in &self.columns {
            if column.is_of(list, name) {
                return Some(column.prints.as_slice());
            }
        }
        None
    }

    /// Notes that the items of a list are filtered by an argument. At the second time it makes the
    /// column.
    fn note(
        &mut self,
        alloc: Global,
        list: &str,
        name: &str,
        items: &[Value],
    ) -> Result<(), AllocError>
        ensures { OnOk result ((object : Data)
            → spec.items_in (member_or_null list.now object) ≡ map view items.now
            → spec.AreColumnsOf object self.old → spec.AreColumnsOf object self.new) }
    {
        if self.columns.len() >= MOST_COLUMNS || self.prints(list, name).is_some() {
            return Ok(());
        }
        let names = print_of_names(list, name);
        if self.noted.contains(&names) {
            self.columns.push(Column {
                list: String::from_str(alloc, list)?,
                name: String::from_str(alloc, name)?,
                prints: prints_in(alloc, name, items)?,
            })?;
        } else if self.noted.len() < MOST_COLUMNS {
            self.noted.push(names)?;
        }
        Ok(())
    }

    /// Notes that the items of a list are filtered by these arguments.
    pub fn note_filter(
        &mut self,
        alloc: Global,
        list: &str,
        arguments: &Map<String, Shared<CoercedValue>>,
        items: &[Value],
    ) -> Result<(), AllocError>
        ensures { OnOk result ((object : Data)
            → spec.items_in (member_or_null list.now object) ≡ map view items.now
            → spec.AreColumnsOf object self.old → spec.AreColumnsOf object self.new) }
    {
        if items.len() < FEWEST_ITEMS {
            return Ok(());
        }
        for (name, _) in arguments.iter() {
            self.note(alloc, list, name.as_str(), items)?;
        }
        Ok(())
    }

    /// The tests of the items of a list by these arguments that there are columns for.
    pub fn tests(
        &self,
        alloc: Global,
        list: &str,
        arguments: &Map<String, Shared<CoercedValue>>,
        items: &[Value],
    ) -> Result<Vec<Test<'_>>, AllocError>
        ensures { IfOk result (λ tests. (object : Data)
            → spec.items_in (member_or_null list.now object) ≡ map view items.now
            → spec.AreColumnsOf object self.now
            → spec.AreTestsOf (members_view arguments.now.entries) (map view items.now)
            tests.items) }
    {
        let mut tests = Vec::new(alloc);
        if items.len() < FEWEST_ITEMS {
            return Ok(tests);
        }
        for (name, argument) in arguments.iter() {
            if let Some(prints) = self.prints(list, name.as_str()) {
                let print = print_of(argument.get().get());
                tests.push(Test { prints, print })?;
            }
        }
        Ok(tests)
    }
}
