//! Whether the names that types list have types.
ghost use Rattle.std.specs.Prelude.{◌≡◌};
ghost use Rattle.std.specs.List.{list_all};
ghost use Rattle.gql_iface_rules.specs.KnownNames as spec;

use gql_ast::Name;
use gql_built_in::Sited;
use gql_types::Schema;

/// Whether a type has the name.
fn is_known(schema: &Schema, name: &Sited<Name>) -> bool
    ensures { result ≡ spec.is_known schema.now name.now }
{
    schema.kind(name.node.as_str()).is_some()
}

/// Whether each of these names has a type.
pub fn are_known(schema: &Schema, names: &[Sited<Name>]) -> bool
    ensures { result ≡ list_all (spec.is_known schema.now) names.now }
{
    names.iter().all(|name| is_known(schema, name))
}
