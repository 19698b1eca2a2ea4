//! The text of errors (GraphQL specification, 7.1.2).
ghost use Rattle.std.specs.Prelude.{◌≡◌, ◌++◌, ◌∷◌, [], codes, false, map, option_map, true, OnOk};
ghost use Rattle.json.specs.Print.{quoted};
ghost use Rattle.serde_json.specs.View.{items_of};
ghost use Rattle.serde_json.specs.Written.{comma_if, compact_text, items_text, members_text};
ghost use Rattle.gql_steps.specs.Outcomes.{error_of, path_of, segment_of};
ghost use Rattle.gql_reply.specs.ReplyText as spec;

use gql_exec::{ResponseError, Step, write_string, write_unsigned};
use gql_text::Place;
use std::alloc::AllocError;

/// Writes the name of a member, with its colon.
fn write_name(name: &str, out: &mut Vec<u8>) -> Result<(), AllocError>
    ensures { OnOk result (out.new.items ≡ out.old.items ++ (quoted name.now ++ codes ":")) }
{
    write_string(name, out)?;
    out.push(b':')?;
    Ok(())
}

/// Writes a number under a name.
fn write_count(name: &str, count: usize, out: &mut Vec<u8>) -> Result<(), AllocError>
    ensures { OnOk result (out.new.items
        ≡ out.old.items ++ (quoted name.now ++ (codes ":" ++ compact_text (spec.number count)))) }
{
    write_name(name, out)?;
    write_unsigned(count as u64, out)?;
    Ok(())
}

/// Writes a place.
fn write_location(place: Place, out: &mut Vec<u8>) -> Result<(), AllocError>
    ensures { OnOk result (out.new.items ≡ out.old.items ++ compact_text (spec.location place)) }
{
    out.push(b'{')?;
    write_count("line", place.line, out)?;
    out.push(b',')?;
    write_count("column", place.column, out)?;
    out.push(b'}')?;
    Ok(())
}

/// Writes a step of a path.
fn write_step(step: &Step<'_>, out: &mut Vec<u8>) -> Result<(), AllocError>
    ensures { OnOk result (out.new.items
        ≡ out.old.items ++ compact_text (spec.step (segment_of step.now))) }
{
    match step {
        Step::Key(name) => write_string(name, out),
        Step::Index(index) => write_unsigned(*index as u64, out),
    }
}

/// Writes a comma, if something comes before.
fn write_comma(later: bool, out: &mut Vec<u8>) -> Result<(), AllocError>
    ensures { OnOk result (out.new.items ≡ out.old.items ++ comma_if later) }
{
    if later {
        out.push(b',')?;
    }
    Ok(())
}

/// Writes the steps of a path, and its closing bracket.
fn write_steps(path: &[Step<'_>], out: &mut Vec<u8>) -> Result<(), AllocError>
    ensures { OnOk result (out.new.items
        ≡ out.old.items ++ items_text false (items_of (map spec.step (path_of path.now)))) }
{
    let mut later = false;
    for step in path {
        write_comma(later, out)?;
        write_step(step, out)?;
        later = true;
    }
    out.push(b']')?;
    Ok(())
}

/// Writes the path of an error, if it has one, and the end of the error.
fn write_path(path: &Option<Vec<Step<'_>>>, out: &mut Vec<u8>) -> Result<(), AllocError>
    ensures { OnOk result (out.new.items ≡ out.old.items
        ++ members_text true (spec.path_member (option_map (λ p. path_of p.items) path.now))) }
{
    match path {
        Some(path) => {
            out.push(b',')?;
            write_name("path", out)?;
            out.push(b'[')?;
            write_steps(path.as_slice(), out)?;
            out.push(b'}')?;
            Ok(())
        }
        None => {
            out.push(b'}')?;
            Ok(())
        }
    }
}

/// Writes the beginning of an error: its message.
fn write_message(message: &str, out: &mut Vec<u8>) -> Result<(), AllocError>
    ensures { OnOk result (out.new.items ≡ out.old.items
        ++ (codes "{" ++ (quoted (codes "message") ++ (codes ":" ++ quoted message.now)))) }
{
    out.push(b'{')?;
    write_name("message", out)?;
    write_string(message, out)?;
    Ok(())
}

/// Writes the list of the one place of an error.
fn write_locations(place: Place, out: &mut Vec<u8>) -> Result<(), AllocError>
    ensures { OnOk result (out.new.items ≡ out.old.items
        ++ (codes "," ++ (quoted (codes "locations") ++ (codes ":["
        ++ (compact_text (spec.location place) ++ codes "]"))))) }
{
    out.push(b',')?;
    write_name("locations", out)?;
    out.push(b'[')?;
    write_location(place, out)?;
    out.push(b']')?;
    Ok(())
}

/// Writes an error.
fn write_error(error: &ResponseError<'_>, out: &mut Vec<u8>) -> Result<(), AllocError>
    ensures { OnOk result (out.new.items
        ≡ out.old.items ++ compact_text (spec.error (error_of error.now))) }
{
    write_message(error.message.as_str(), out)?;
    write_locations(error.place, out)?;
    write_path(&error.path, out)?;
    Ok(())
}

/// Writes errors, and the closing bracket of their list.
pub fn write_errors(errors: &[ResponseError<'_>], out: &mut Vec<u8>) -> Result<(), AllocError>
    ensures { OnOk result (out.new.items ≡ out.old.items
        ++ items_text false (items_of (map spec.error (map error_of errors.now)))) }
{
    let mut later = false;
    for error in errors {
        write_comma(later, out)?;
        write_error(error, out)?;
        later = true;
    }
    out.push(b']')?;
    Ok(())
}
