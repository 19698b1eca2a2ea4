//! Numbers for the texts by which fields are compared: they are equal exactly if the texts are.
ghost use Rattle.std.specs.Prelude.{◌≡◌, IfOk, OnOk, bytes_eq, map};
ghost use Rattle.std.specs.HashMap as hash;
ghost use Rattle.gql_merge.specs.FieldSets.{own_name as the_own_name};
ghost use Rattle.gql_merge.specs.Known.{info_in};
ghost use Rattle.gql_merge.specs.Numbers as spec;

use crate::flat::FlatField;
use gql_ast::{Field, Name, Text};
use std::alloc::{AllocError, Global};
use std::collections::HashMap;

/// What is compared of a field as a text.
#[derive(Clone, Copy)]
pub enum Aspect {
    File,
    ResponseName,
    Parent,
    Call,
    Shape,
}

/// The numbers of all aspects, of each field at its place.
#[derive(Drop)]
pub struct Columns {
    pub files: Vec<usize>,
    pub names: Vec<usize>,
    pub parents: Vec<usize>,
    pub calls: Vec<usize>,
    pub shapes: Vec<usize>,
}

/// The response name of a field: its alias, or its name if it has none.
pub fn own_name(field: &Field) -> &Name
    ensures { result.now ≡ the_own_name field.now.alias field.now.name }
{
    match &field.alias {
        Some(alias) => alias,
        None => &field.name,
    }
}

fn aspect_of(alloc: Global, aspect: Aspect, field: &FlatField<'_>) -> Result<Text, AllocError>
    ensures { IfOk result (λ t. t ≡ spec.aspect_of aspect (info_in field.now.known)) }
{
    let known = &field.known;
    match aspect {
        Aspect::File => Text::from_str(alloc, known.file.as_str()),
        Aspect::ResponseName => own_name(known.field).text.copy(),
        Aspect::Parent => known.parent.copy(),
        Aspect::Call => known.call.copy(),
        Aspect::Shape => known.shape.copy(),
    }
}

fn aspects_of(alloc: Global, aspect: Aspect, all: &[FlatField<'_>]) -> Result<Vec<Text>, AllocError>
    ensures { IfOk result (λ texts. texts.items
        ≡ spec.aspects_of aspect all.now) }
{
    let mut texts = Vec::new(alloc);
    for field in all {
        texts.push(aspect_of(alloc, aspect, field)?)?;
    }
    Ok(texts)
}

/// The number of a text, if it has one.
pub fn known_number(text: &str, places: &HashMap<&str, usize>) -> Option<usize>
    ensures { result ≡ hash.get_by (λ k. bytes_eq text.now k.now) places.now }
{
    match places.get(text) {
        Some(number) => Some(*number),
        None => None,
    }
}

/// The number of a text that is at this place, after others.
fn number_of<'a>(
    text: &'a str,
    place: usize,
    places: &mut HashMap<&'a str, usize>,
) -> Result<usize, AllocError>
    ensures { IfOk result (λ n. spec.AddsText
        (λ q. hash.get_by (λ k. bytes_eq q k.now) places.old) text.now place
        (λ q. hash.get_by (λ k. bytes_eq q k.now) places.new) n) }
{
    match known_number(text, places) {
        Some(number) => Ok(number),
        None => {
            places.insert(text, place)?;
            Ok(place)
        }
    }
}

/// The numbers of texts: equal texts have the number of the first place.
fn numbers_of(alloc: Global, texts: &[Text]) -> Result<Vec<usize>, AllocError>
    ensures { IfOk result (λ numbers. spec.HasPlaces texts.now numbers.items) }
{
    let mut places: HashMap<&str, usize> = HashMap::new(alloc);
    let mut numbers = Vec::new(alloc);
    for place in 0..texts.len() {
        numbers.push(number_of(texts[place].as_str(), place, &mut places)?)?;
    }
    Ok(numbers)
}

/// The numbers of an aspect of these fields.
fn column_of(alloc: Global, aspect: Aspect, all: &[FlatField<'_>]) -> Result<Vec<usize>, AllocError>
    ensures { IfOk result (λ numbers. spec.HasPlaces
        (spec.aspects_of aspect all.now) numbers.items) }
{
    let texts = aspects_of(alloc, aspect, all)?;
    numbers_of(alloc, texts.as_slice())
}

/// The numbers of all aspects of these fields.
pub fn columns_of(alloc: Global, all: &[FlatField<'_>]) -> Result<Columns, AllocError>
    ensures { IfOk result (λ c. spec.AreColumns all.now c) }
{
    let files = column_of(alloc, Aspect::File, all)?;
    let names = column_of(alloc, Aspect::ResponseName, all)?;
    let parents = column_of(alloc, Aspect::Parent, all)?;
    let calls = column_of(alloc, Aspect::Call, all)?;
    let shapes = column_of(alloc, Aspect::Shape, all)?;
    Ok(Columns {
        files,
        names,
        parents,
        calls,
        shapes,
    })
}
