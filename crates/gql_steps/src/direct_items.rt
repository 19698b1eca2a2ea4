//! Lists of values of the built-in scalars, whose items are written at once as long as they need no
//! error.
ghost use Rattle.std.specs.Prelude.{◌≡◌, ◌<◌, ◌++◌, codes, decimal, IfOk, IfErr, OnOk};
ghost use Rattle.std.specs.Fmt.{signed_decimal};
ghost use Rattle.gql_inputs.specs.declared.scalar.Scalar.TheVariants.{Int as TheInt};
ghost use Rattle.gql_types.specs.Written.{written};
ghost use Rattle.serde_json.specs.Data.{number};
ghost use Rattle.serde_json.specs.Find.{of_integer};
ghost use Rattle.gql_steps.specs.JsonText.{json_text};
ghost use Rattle.gql_steps.specs.Direct.{data_of};
ghost use Rattle.gql_steps.specs.DirectParts.{ItemsStop, ItemsWritten, ScalarsStop, ScalarsWritten};
ghost use Rattle.gql_steps.specs.Parts.{after_comma, counted, plain};
ghost use Rattle.gql_steps.specs.States.{Executes, Follows};
ghost use Rattle.gql_steps.specs.ValueParts.{items_in};

use crate::direct::{Direct, direct_scalar, int_in, write_direct};
use crate::ended::Ended;
use crate::items::ListItems;
use crate::kinds::ValueKind;
use crate::refusal::ExecRefusal;
use crate::run::Run;
use crate::steps::{count, write_byte, write_comma, write_whole};
use gql_ast::TypeRef;
use gql_inputs::{Scalar, is_list};

/// Writes a comma and an integer of one digit.
#[inline(always)]
fn write_next_digit(run: &mut Run<'_>, digit: u8) -> Result<(), ExecRefusal>
    requires { digit < 10 }
    ensures follows { OnOk result
        (Follows (plain (codes "," ++ decimal digit)) run.old run.new) }
    ensures err { IfErr result (λ e. e ≡ ExecRefusal.Memory) }
{
    run.out.reserve(2)?;
    run.out.push_reserved(b',');
    run.out.push_reserved(b'0' + digit);
    Ok(())
}

/// Writes a comma and an integer.
#[inline(always)]
fn write_next_whole(run: &mut Run<'_>, whole: i64) -> Result<(), ExecRefusal>
    ensures follows { OnOk result
        (Follows (plain (codes "," ++ signed_decimal whole)) run.old run.new) }
    ensures err { IfErr result (λ e. e ≡ ExecRefusal.Memory) }
{
    if 0 <= whole && whole < 10 {
        return write_next_digit(run, whole as u8);
    }
    write_byte(run, b',')?;
    write_whole(run, whole)
}

/// Writes an integer of a list, with its comma.
#[inline(always)]
fn write_whole_item(run: &mut Run<'_>, i: usize, whole: i64) -> Result<Ended, ExecRefusal>
    ensures { Executes (after_comma i (counted (plain (json_text (number (of_integer whole))))))
        result run.old run.new }
{
    count(run)?;
    if i == 0 {
        write_whole(run, whole)?;
        return Ok(Ended::Written);
    }
    write_next_whole(run, whole)?;
    Ok(Ended::Written)
}

/// Writes a value of a list, with its comma.
#[inline(always)]
fn write_direct_item(run: &mut Run<'_>, i: usize, direct: Direct<'_>) -> Result<Ended, ExecRefusal>
    ensures { Executes (after_comma i (counted (plain (json_text (data_of direct.entry)))))
        result run.old run.new }
{
    write_comma(run, i)?;
    count(run)?;
    write_direct(run, direct)
}

/// Writes items from the first one on, as long as they are Ints that need no error: how many these
/// are.
fn write_ints(run: &mut Run<'_>, items: ListItems<'_, '_>) -> Result<usize, ExecRefusal>
    ensures written { IfOk result (λ k.
        ScalarsWritten TheInt (items_in items.entry) k run.old run.new) }
    ensures stops { IfErr result (ScalarsStop TheInt (items_in items.entry) run.old) }
{
    for i in 0..items.count() {
        let Some(whole) = int_in(items.item(i)) else {
            return Ok(i);
        };
        write_whole_item(run, i, whole)?;
    }
    Ok(items.count())
}

/// Writes items from the first one on, as long as they are values of a scalar that need no error:
/// how many these are. Ints have a loop of their own, which is faster.
fn write_scalars(
    run: &mut Run<'_>,
    scalar: Scalar,
    items: ListItems<'_, '_>,
) -> Result<usize, ExecRefusal>
    ensures written { IfOk result (λ k.
        ScalarsWritten scalar (items_in items.entry) k run.old run.new) }
    ensures stops { IfErr result (ScalarsStop scalar (items_in items.entry) run.old) }
{
    if let Scalar::Int = scalar {
        return write_ints(run, items);
    }
    for i in 0..items.count() {
        let Some(found) = direct_scalar(scalar, items.item(i)) else {
            return Ok(i);
        };
        write_direct_item(run, i, found)?;
    }
    Ok(items.count())
}

/// Writes items from the first one on, as long as they are values of a built-in scalar that need no
/// error: how many these are. They are in places of this type.
pub fn write_direct_items(
    run: &mut Run<'_>,
    kind: ValueKind,
    of_type: &TypeRef,
    items: ListItems<'_, '_>,
) -> Result<usize, ExecRefusal>
    ensures written { IfOk result (λ k.
        ItemsWritten kind (written of_type.now) (items_in items.entry) k run.old run.new) }
    ensures stops { IfErr result
        (ItemsStop kind (written of_type.now) (items_in items.entry) run.old) }
{
    match kind {
        ValueKind::Scalar(scalar) => {
            if is_list(of_type) {
                Ok(0)
            } else {
                write_scalars(run, scalar, items)
            }
        }
        ValueKind::Enum => Ok(0),
        ValueKind::Object => Ok(0),
        ValueKind::Abstract => Ok(0),
        ValueKind::NoOutput => Ok(0),
    }
}
