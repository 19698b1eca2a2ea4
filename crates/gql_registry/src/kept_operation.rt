//! An operation of a document file.
ghost use Rattle.std.specs.Prelude.{◌≡◌};
ghost use Rattle.std.specs.Option.{option_copied};

use gql_ast::{Definition, FileName, Text};

/// An operation of a document file.
pub struct KeptOperation {
    /// Its name, if it has one.
    pub name: Option<Text>,
    /// The name of the file.
    pub file: FileName,
    /// How many definitions are before it in the file.
    pub number: usize,
    pub definition: Definition,
}

impl Drop for KeptOperation {
    fn drop(self) {
        let KeptOperation {
            name: _,
            file: _,
            number: _,
            definition: _,
        } = self;
    }
}

impl KeptOperation {
    /// Its name, if it has one.
    pub fn name(&self) -> Option<&str>
        ensures { option_copied result ≡ self.now.name }
    {
        match &self.name {
            Some(name) => Some(name.as_str()),
            None => None,
        }
    }
}
