//! Parts of a schema, with the file that they are in.
ghost use Rattle.std.specs.Prelude.{◌≡◌, IfOk};
ghost use Rattle.std.specs.Option.{option_copied};

use gql_ast::FileName;
use std::alloc::AllocError;

/// The name of the file that a part of a schema is in, or none if the part is built in. The parts
/// of a file share the text of its name.
pub type SourceFile = Option<FileName>;

/// A part of a schema with its file, or with none if it is built in.
pub struct Sited<T> {
    pub file: SourceFile,
    pub node: T,
}

impl<T: Drop> Drop for Sited<T> {
    fn drop(self) {
        let Sited { file: _, node: _ } = self;
    }
}

/// The name of the file, if there is one.
pub fn name_of_source(file: &SourceFile) -> Option<&FileName>
    ensures { option_copied result ≡ file.now }
{
    match file {
        Some(name) => Some(name),
        None => None,
    }
}

/// The same file, which shares the text of its name.
pub fn same_source(file: &SourceFile) -> Result<SourceFile, AllocError>
    ensures { IfOk result (λ same. same ≡ file.now) }
{
    match file {
        Some(name) => Ok(Some(name.copy()?)),
        None => Ok(None),
    }
}
