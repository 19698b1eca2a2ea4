//! Annotations of a build server of GitHub: each is one line.

ghost use Rattle.std.specs.Prelude.{◌≡◌, ◌++◌, OnOk, map, string_bytes};
ghost use Rattle.std.specs.List.{flat_map};
ghost use Rattle.gql_render.specs.Annotations as spec;

use crate::escapes::{write_message, write_property};
use crate::write::{write_number, write_text};
use std::alloc::AllocError;

/// How grave an annotation is.
#[derive(Clone, Copy)]
pub enum Level {
    Error,
    Warning,
    Notice,
}

/// The place of an annotation: a file, a line, and a column if there is one.
#[derive(Clone, Copy)]
pub struct Place<'p> {
    pub file: &'p str,
    pub line: usize,
    pub column: Option<usize>,
}

/// An annotation.
#[derive(Drop)]
pub struct Annotation<'a> {
    pub level: Level,
    pub place: Option<Place<'a>>,
    pub title: &'a str,
    pub text: String,
}

/// The word for a level.
fn level_word(level: Level) -> &'static str
    ensures { result.now ≡ spec.level_word level }
{
    match level {
        Level::Error => "error",
        Level::Warning => "warning",
        Level::Notice => "notice",
    }
}

/// Writes a column, if there is one.
fn write_column(out: &mut String, column: Option<usize>) -> Result<(), AllocError>
    ensures { OnOk result (string_bytes out.new
        ≡ string_bytes out.old ++ spec.column_text column) }
{
    match column {
        Some(column) => {
            write_text(out, ",col=")?;
            write_number(out, column)
        }
        None => Ok(()),
    }
}

/// Writes a place.
#[tactic(auto, unfolding(crate::specs::Annotations::place_text))]
fn write_place(out: &mut String, place: &Place<'_>) -> Result<(), AllocError>
    ensures { OnOk result (string_bytes out.new
        ≡ string_bytes out.old ++ spec.place_text place.entry.now) }
{
    write_text(out, "file=")?;
    write_property(out, place.file)?;
    write_text(out, ",line=")?;
    write_number(out, place.line)?;
    write_column(out, place.column)?;
    write_text(out, ",")
}

/// Writes a place, if there is one.
fn write_place_if(out: &mut String, place: &Option<Place<'_>>) -> Result<(), AllocError>
    ensures { OnOk result (string_bytes out.new
        ≡ string_bytes out.old ++ spec.place_text_if place.entry.now) }
{
    match place {
        Some(place) => write_place(out, place),
        None => Ok(()),
    }
}

/// Writes the level, the place and the title of an annotation.
#[tactic(auto, unfolding(crate::specs::Annotations::head_text))]
fn write_head(out: &mut String, annotation: &Annotation<'_>) -> Result<(), AllocError>
    ensures { OnOk result (string_bytes out.new
        ≡ string_bytes out.old ++ spec.head_text annotation.entry.now) }
{
    write_text(out, "::")?;
    write_text(out, level_word(annotation.level))?;
    write_text(out, " ")?;
    write_place_if(out, &annotation.place)?;
    write_text(out, "title=")?;
    write_property(out, annotation.title)?;
    write_text(out, "::")
}

/// Writes an annotation.
#[tactic(auto, unfolding(crate::specs::Annotations::annotation_text))]
pub fn write_annotation(out: &mut String, annotation: &Annotation<'_>) -> Result<(), AllocError>
    ensures { OnOk result (string_bytes out.new
        ≡ string_bytes out.old ++ spec.annotation_text annotation.entry.now) }
{
    write_head(out, annotation)?;
    write_message(out, annotation.text.as_str())?;
    write_text(out, "\n")
}

/// Writes annotations, one after the other.
pub fn write_annotations(out: &mut String, annotations: &[Annotation<'_>]) -> Result<(), AllocError>
    ensures { OnOk result (string_bytes out.new ≡ string_bytes out.old
        ++ flat_map spec.annotation_text annotations.entry.now) }
{
    for annotation in annotations {
        write_annotation(out, annotation)?;
    }
    Ok(())
}
