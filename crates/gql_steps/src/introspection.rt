//! What introspection answers for the fields of its nodes (GraphQL specification, 4.2).
ghost use Rattle.std.specs.Prelude.{◌≡◌, ◌<◌, length, map, option_and_then, option_map};
ghost use Rattle.std.proofs.Common.{get_or};
ghost use Rattle.std.specs.Option.{option_copied};
ghost use Rattle.json.specs.Print.{quoted};
ghost use Rattle.gql_ast.specs.LiteralTexts.{literal_text};
ghost use Rattle.gql_intro.specs.Borrowed.{answer_of, given_of, node_of};
ghost use Rattle.gql_intro.specs.Introspection.{location_name as name_of_location};
ghost use Rattle.serde_json.specs.Data.{boolean};
ghost use Rattle.serde_json.specs.Find.{as_bool, as_str, get};
ghost use Rattle.serde_json.specs.View.{view};
ghost use Rattle.gql_steps.specs.JsonText.{json_text};
ghost use Rattle.gql_steps.specs.Objects.{basis};
ghost use Rattle.gql_steps.specs.Parts.{plain};
ghost use Rattle.gql_steps.specs.Plans as plans;
ghost use Rattle.gql_steps.specs.States.{Executes};
ghost use Rattle.gql_steps.specs.ValueParts.{name_list_part, name_part, names_part};

use crate::ended::Ended;
use crate::leaves::write_truth;
use crate::refusal::ExecRefusal;
use crate::run::Run;
use crate::setting::Setting;
use crate::steps::{count, write_byte, write_comma, write_text, write_text_bytes};
use gql_ast::{DirectiveLocation, Literal, print_literal};
use gql_coerce::CoercedObject;
use gql_intro::{IntroAnswer, IntroArguments, IntroNode, intro_resolve, location_name};
use std::alloc::Global;

/// The text of an argument, if it has one.
fn text_argument<'a>(arguments: &'a CoercedObject, name: &str) -> Option<&'a str>
    ensures { option_copied result ≡ option_and_then as_str (get name.now (view arguments.now)) }
{
    match arguments.get(name) {
        Some(value) => value.as_str(),
        None => None,
    }
}

/// The truth value of an argument, if it has one.
fn truth_argument(arguments: &CoercedObject, name: &str) -> Option<bool>
    ensures { result ≡ option_and_then as_bool (get name.now (view arguments.now)) }
{
    match arguments.get(name) {
        Some(value) => value.as_bool(),
        None => None,
    }
}

/// The arguments that fields of introspection have.
fn intro_arguments(arguments: &CoercedObject) -> IntroArguments<'_>
    ensures { given_of result ≡ plans.intro_arguments (view arguments.now) }
{
    IntroArguments {
        name: text_argument(arguments, "name"),
        include_deprecated: truth_argument(arguments, "includeDeprecated"),
    }
}

/// What a field of a node resolves to, if the node has such a field.
pub fn introspect<'d>(
    setting: &Setting<'d, '_>,
    node: IntroNode<'d>,
    field: &str,
    arguments: &CoercedObject,
) -> Option<IntroAnswer<'d>>
    ensures { option_map (answer_of setting.now.context.schema.now) result
        ≡ plans.introspect_in (basis setting.now) (node_of node.entry) field.now
        (view arguments.now) }
{
    let schema = setting.context.schema;
    intro_resolve(
        schema,
        setting.made,
        node,
        field,
        intro_arguments(arguments),
    )
}

/// Writes a name.
pub fn write_name(run: &mut Run<'_>, name: &str) -> Result<Ended, ExecRefusal>
    ensures { Executes (plain (quoted name.now)) result run.old run.new }
{
    write_text(run, name)?;
    Ok(Ended::Written)
}

/// Writes `true` or `false`.
pub fn write_flag(run: &mut Run<'_>, flag: bool) -> Result<Ended, ExecRefusal>
    ensures { Executes (plain (json_text (boolean flag))) result run.old run.new }
{
    write_truth(run, flag)?;
    Ok(Ended::Written)
}

/// Writes the text of a literal, as a string.
pub fn write_literal(
    alloc: Global,
    literal: &Literal,
    run: &mut Run<'_>,
) -> Result<Ended, ExecRefusal>
    ensures { Executes (plain (quoted (literal_text literal.now))) result run.old run.new }
{
    let text = print_literal(alloc, literal)?;
    write_text_bytes(run, text.as_slice())?;
    Ok(Ended::Written)
}

/// The location at a place of a list.
fn location_at(locations: &[DirectiveLocation], i: usize) -> DirectiveLocation
    requires { i < length locations.now }
    ensures { result ≡ get_or locations.now i result }
{
    locations[i]
}

/// Writes the name of a location, with its comma.
fn write_location(
    run: &mut Run<'_>,
    i: usize,
    location: DirectiveLocation,
) -> Result<Ended, ExecRefusal>
    ensures { Executes (name_part i (name_of_location location)) result run.old run.new }
{
    write_comma(run, i)?;
    count(run)?;
    write_name(run, location_name(location))
}

/// Writes the names of locations, one after another.
fn list_locations(run: &mut Run<'_>, locations: &[DirectiveLocation]) -> Result<Ended, ExecRefusal>
    ensures { Executes (names_part (map name_of_location locations.now)) result run.old run.new }
{
    let mut ended = Ended::Written;
    for i in 0..locations.len() {
        let location = location_at(locations, i);
        ended = ended.and(write_location(run, i, location)?);
    }
    Ok(ended)
}

/// Writes the names of locations, as a list.
pub fn write_locations(
    run: &mut Run<'_>,
    locations: &[DirectiveLocation],
) -> Result<Ended, ExecRefusal>
    ensures { Executes (name_list_part (map name_of_location locations.now))
        result run.old run.new }
{
    write_byte(run, b'[')?;
    let ended = list_locations(run, locations)?;
    write_byte(run, b']')?;
    Ok(ended)
}
