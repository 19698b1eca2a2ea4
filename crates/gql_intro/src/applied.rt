//! The directives that introspection reports: `@deprecated` and `@specifiedBy` (GraphQL
//! specification, 3.13.3, 3.13.4).
ghost use Rattle.std.specs.Prelude.{◌≡◌, flat_map};
ghost use Rattle.std.specs.Option.{option_copied};
ghost use Rattle.gql_intro.specs.Applied as spec;
ghost use Rattle.gql_types.specs.Applied.{directive_of as directive_named};

use gql_ast::{Directive, Shared, TypeExtension};
use gql_types::{SchemaType, Sited, argument_of, directive_of, string_of};

/// Whether a definition with these directives is deprecated: a field, an argument, an input field
/// or an enum value.
pub fn is_deprecated(directives: &[Directive]) -> bool
    ensures { result ≡ spec.is_deprecated directives.now }
{
    directive_of("deprecated", directives).is_some()
}

/// The reason of a directive: its argument, which may be null, or else the default.
fn reason_of(directive: &Directive) -> Option<&str>
    ensures { option_copied result ≡ spec.reason_of directive.now }
{
    match argument_of("reason", directive) {
        Some(argument) => string_of(&argument.value),
        None => Some("No longer supported"),
    }
}

/// The deprecation reason of a definition with these directives.
pub fn deprecation_reason(directives: &[Directive]) -> Option<&str>
    ensures { option_copied result ≡ spec.deprecation_reason directives.now }
{
    match directive_of("deprecated", directives) {
        Some(directive) => reason_of(directive),
        None => None,
    }
}

/// The URL of a directive.
fn url_of(directive: &Directive) -> Option<&str>
    ensures { option_copied result ≡ spec.url_of directive.now }
{
    match argument_of("url", directive) {
        Some(argument) => string_of(&argument.value),
        None => None,
    }
}

/// The first directive of that name that these extensions have.
#[tactic(auto, using(crate::proofs::Finding::next_found, crate::proofs::Finding::next_after))]
fn directive_in<'t>(
    name: &str,
    extensions: &'t [Sited<Shared<TypeExtension>>],
) -> Option<&'t Directive>
    ensures { option_copied result
        ≡ directive_named name.now (flat_map spec.extension_directives extensions.now) }
{
    for extension in extensions {
        if let Some(directive) = directive_of(name, extension.node.get().directives.as_slice()) {
            return Some(directive);
        }
    }
    None
}

/// The first directive of that name that a type has, by its definition or by an extension.
#[tactic(auto, using(crate::proofs::Finding::found_before, crate::proofs::Finding::found_after))]
fn type_directive<'t>(name: &str, of_type: &'t SchemaType) -> Option<&'t Directive>
    ensures { option_copied result ≡ directive_named name.now (spec.type_directives of_type.now) }
{
    let definition = of_type.definition.node.get();
    match directive_of(name, definition.directives.as_slice()) {
        Some(directive) => Some(directive),
        None => directive_in(name, of_type.extensions.as_slice()),
    }
}

/// The URL that specifies a type, if its directives have one.
pub fn specified_by_url(of_type: &SchemaType) -> Option<&str>
    ensures { option_copied result ≡ spec.specified_by_url of_type.now }
{
    match type_directive("specifiedBy", of_type) {
        Some(directive) => url_of(directive),
        None => None,
    }
}
