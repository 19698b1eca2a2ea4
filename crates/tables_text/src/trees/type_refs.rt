//! Types, as the tables write them.

use crate::trees::{Written, write_placed};
use gql_ast::TypeRef;
use std::alloc::AllocError;

impl Written for TypeRef {
    fn write_to(&self, text: &mut String) -> Result<(), AllocError> {
        match self {
            TypeRef::Named(name) => name.write_to(text),
            TypeRef::List { place, item } => {
                text.push_str("[")?;
                item.get().write_to(text)?;
                write_placed(text, "]", place)
            }
            TypeRef::NonNull(of_type) => {
                of_type.get().write_to(text)?;
                text.push_str("!")
            }
        }
    }
}
