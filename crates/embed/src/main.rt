//! An example of a program over one crate, `gql_parse`: it lists the operations and the fragments
//! of the document on standard input, or says why the text is not a document.
#![tactic(auto)]

use anyhow::Result;
use gql_ast::{FileName, Tree};
use gql_grammar::SyntaxFault;
use gql_parse::parse;
use std::io;

/// The most bytes of the name of a file.
const LONGEST_NAME: usize = 64;

fn main(rt: HostRuntime) -> Result<()> {
    let text = io::read_to_string(rt.alloc(), rt.stdin())?;
    let Some(file) = FileName::read(rt.alloc(), "input", LONGEST_NAME)? else {
        return Ok(());
    };
    match parse(rt.alloc(), file, text.as_str()) {
        Ok(document) => {
            for definition in document.definitions.as_slice() {
                let line = definition.tree.place().line;
                let name = match &definition.tree {
                    Tree::Operation(operation) => operation.get().name.as_ref(),
                    Tree::Fragment(fragment) => Some(&fragment.get().name),
                    _ => None,
                };
                match name {
                    Some(name) => println!(rt; "line {line}: {}", name.as_str())?,
                    None => println!(rt; "line {line}: no name")?,
                }
            }
        }
        Err(SyntaxFault::At { number, place }) => {
            println!(rt;
                "refused: {} at {}:{}",
                number.number(),
                place.line,
                place.column
            )?
        }
        Err(SyntaxFault::Memory) => println!(rt; "out of memory")?,
    }
    Ok(())
}
