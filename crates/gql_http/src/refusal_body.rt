//! The bodies of refusals.
ghost use Rattle.std.specs.Prelude.{◌≡◌, ◌++◌, OnOk, IfOk};
ghost use Rattle.std.specs.Option.{option_copied};
ghost use Rattle.gql_http.specs.Answers.{error_text, faulty_text, file_member, located_text, refused_text, stale_text, syntax_text};

use crate::report_body::write_faults;
use crate::write::{write_bytes, write_number, write_string};
use gql_ast::{Fault, Shared};
use gql_grammar::SyntaxRefusal;
use gql_registry::syntax_message;
use gql_text::Place;
use std::alloc::{AllocError, Global};

/// Writes the file that a refusal names, if it names one.
#[tactic(auto, unfolding(crate::specs::Answers::file_member))]
fn write_file(alloc: Global, out: &mut Vec<u8>, file: Option<&str>) -> Result<(), AllocError>
    ensures { OnOk result (out.new.items
        ≡ out.old.items ++ file_member (option_copied file.entry)) }
{
    match file {
        Some(file) => {
            write_bytes(out, b",\"file\":")?;
            write_string(alloc, out, file)
        }
        None => Ok(()),
    }
}

/// A refusal with its message, its number and the file that it names, if there is one.
#[tactic(auto, unfolding(crate::specs::Answers::refused_text))]
pub fn refused_body(
    alloc: Global,
    message: &str,
    number: u64,
    file: Option<&str>,
) -> Result<Vec<u8>, AllocError>
    ensures { IfOk result (λ body. body.items
        ≡ refused_text (option_copied file.entry) message.now number) }
{
    let mut out = Vec::new(alloc);
    write_bytes(&mut out, b"{\"errors\":[{\"message\":")?;
    write_string(alloc, &mut out, message)?;
    write_bytes(&mut out, b",\"extensions\":{\"code\":")?;
    write_number(&mut out, number)?;
    write_file(alloc, &mut out, file)?;
    write_bytes(&mut out, b"}}]}")?;
    Ok(out)
}

/// A refusal with its message and number.
pub fn error_body(alloc: Global, message: &str, number: u64) -> Result<Vec<u8>, AllocError>
    ensures { IfOk result (λ body. body.items ≡ error_text message.now number) }
{
    refused_body(alloc, message, number, None)
}

#[tactic(auto, unfolding(crate::specs::Answers::located_text))]
fn write_located(
    alloc: Global,
    out: &mut Vec<u8>,
    message: &str,
    place: Place,
) -> Result<(), AllocError>
    ensures { OnOk result (out.new.items ≡ out.old.items ++ located_text message.now place) }
{
    write_bytes(out, b"{\"errors\":[{\"message\":")?;
    write_string(alloc, out, message)?;
    write_bytes(out, b",\"locations\":[{\"line\":")?;
    write_number(out, place.line as u64)?;
    write_bytes(out, b",\"column\":")?;
    write_number(out, place.column as u64)?;
    write_bytes(out, b"}]")?;
    Ok(())
}

/// A syntax refusal with its place, its own number and the file that it names, if there is one.
#[tactic(auto, unfolding(crate::specs::Answers::syntax_text))]
pub fn syntax_body(
    alloc: Global,
    number: SyntaxRefusal,
    place: Place,
    file: Option<&str>,
) -> Result<Vec<u8>, AllocError>
    ensures { IfOk result (λ body. body.items
        ≡ syntax_text (option_copied file.entry) number place) }
{
    let mut out = Vec::new(alloc);
    write_located(alloc, &mut out, syntax_message(number), place)?;
    write_bytes(&mut out, b",\"extensions\":{\"code\":201,\"syntax\":")?;
    write_number(&mut out, u64::from(number.number()))?;
    write_file(alloc, &mut out, file)?;
    write_bytes(&mut out, b"}}]}")?;
    Ok(out)
}

/// A stale edit, with the present revision.
#[tactic(auto, unfolding(crate::specs::Answers::stale_text))]
pub fn stale_body(alloc: Global, revision: u64) -> Result<Vec<u8>, AllocError>
    ensures { IfOk result (λ body. body.items ≡ stale_text revision) }
{
    let mut out = Vec::new(alloc);
    write_bytes(
        &mut out,
        b"{\"errors\":[{\"message\":\"stale revision\",\"extensions\":{\"code\":206,\"revision\":",
    )?;
    write_number(&mut out, revision)?;
    write_bytes(&mut out, b"}}]}")?;
    Ok(out)
}

/// A faulty operation, with its faults.
#[tactic(auto, unfolding(crate::specs::Answers::faulty_text))]
pub fn faulty_body(alloc: Global, faults: &[Shared<Fault>]) -> Result<Vec<u8>, AllocError>
    ensures { IfOk result (λ body. body.items ≡ faulty_text faults.now) }
{
    let mut out = Vec::new(alloc);
    write_bytes(
        &mut out,
        b"{\"errors\":[{\"message\":\"operation is faulty\",\"extensions\":{\"code\":209,\"faults\":[",
    )?;
    write_faults(alloc, &mut out, faults)?;
    write_bytes(&mut out, b"]}}]}")?;
    Ok(out)
}
