//! The shape of a type, as a text.
ghost use Rattle.std.specs.Prelude.{◌≡◌, ◌++◌, IfOk, OnOk, flat_map, string_bytes};
ghost use Rattle.gql_merge.specs.Shapes as spec;

use gql_ast::Text;
use gql_types::{TypeKind, Wrapper, WrittenType};
use std::alloc::{AllocError, Global};

fn step_text(step: Wrapper) -> &'static str
    ensures { result.now ≡ spec.step_text step }
{
    match step {
        Wrapper::List => "[",
        Wrapper::NonNull => "!",
    }
}

fn add_steps(steps: &[Wrapper], out: &mut String) -> Result<(), AllocError>
    ensures { OnOk result (string_bytes out.new
        ≡ string_bytes out.old ++ flat_map spec.step_text steps.now) }
{
    for step in steps {
        out.push_str(step_text(*step))?;
    }
    Ok(())
}

fn leaf_text(kind: Option<TypeKind>, name: &Text) -> &str
    ensures { result.now ≡ spec.leaf_text kind name.now }
{
    match kind {
        Some(TypeKind::Scalar) => name.as_str(),
        Some(TypeKind::Enum) => name.as_str(),
        Some(TypeKind::Object) => "",
        Some(TypeKind::Interface) => "",
        Some(TypeKind::Union) => "",
        Some(TypeKind::InputObject) => "",
        None => "",
    }
}

/// The shape of a type whose named type has this kind.
pub fn shape_text(
    alloc: Global,
    of_type: &WrittenType,
    kind: Option<TypeKind>,
) -> Result<Text, AllocError>
    ensures { IfOk result (λ t. t ≡ spec.shape_text of_type.now kind) }
{
    let mut out = String::new(alloc);
    add_steps(of_type.wrappers.as_slice(), &mut out)?;
    out.push_str(leaf_text(kind, &of_type.name))?;
    Text::from_str(alloc, out.as_str())
}
