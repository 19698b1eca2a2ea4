//! Texts in order.
ghost use Rattle.std.specs.Prelude.{◌≡◌, ◌++◌, [], IfOk, OnOk, fold, map, string_bytes};
ghost use Rattle.gql_merge.specs.Calls as spec;

use gql_ast::Text;
use std::alloc::{AllocError, Global};
use std::collections::BTreeMap;

fn once(alloc: Global, texts: &[Text]) -> Result<BTreeMap<Text, ()>, AllocError>
    ensures { IfOk result (λ set. set.entries ≡ fold spec.with_text [] texts.now) }
{
    let mut set = BTreeMap::new(alloc);
    for text in texts {
        set.insert(text.copy()?, ())?;
    }
    Ok(set)
}

fn add_once(set: &BTreeMap<Text, ()>, out: &mut String) -> Result<(), AllocError>
    ensures { OnOk result (string_bytes out.new ≡ string_bytes out.old
        ++ spec.with_commas (map (λ e. e.0) set.now.entries)) }
{
    for (text, _unit) in set.iter() {
        out.push_str(text.as_str())?;
        out.push_str(",")?;
    }
    Ok(())
}

/// Adds these texts in the order of their bytes, each once, with a comma after each.
pub fn add_each_once(alloc: Global, texts: &[Text], out: &mut String) -> Result<(), AllocError>
    ensures { OnOk result (string_bytes out.new
        ≡ string_bytes out.old ++ spec.with_commas (spec.each_once texts.now)) }
{
    let set = once(alloc, texts)?;
    add_once(&set, out)
}

fn ordered(alloc: Global, texts: &[Text]) -> Result<BTreeMap<(Text, usize), ()>, AllocError>
    ensures { IfOk result (λ set. set.entries ≡ spec.ordered_from [] 0 texts.now) }
{
    let mut set: BTreeMap<(Text, usize), ()> = BTreeMap::new(alloc);
    for number in 0..texts.len() {
        set.insert((texts[number].copy()?, number), ())?;
    }
    Ok(set)
}

fn add_ordered(set: &BTreeMap<(Text, usize), ()>, out: &mut String) -> Result<(), AllocError>
    ensures { OnOk result (string_bytes out.new ≡ string_bytes out.old
        ++ spec.with_commas (map (λ e. e.0.0) set.now.entries)) }
{
    for (key, _unit) in set.iter() {
        out.push_str(key.0.as_str())?;
        out.push_str(",")?;
    }
    Ok(())
}

/// Adds these texts in the order of their bytes, each as often as it is there, with a comma after
/// each.
pub fn add_in_order(alloc: Global, texts: &[Text], out: &mut String) -> Result<(), AllocError>
    ensures { OnOk result (string_bytes out.new
        ≡ string_bytes out.old ++ spec.with_commas (spec.in_order texts.now)) }
{
    let set = ordered(alloc, texts)?;
    add_ordered(&set, out)
}
