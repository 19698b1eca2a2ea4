//! Texts that are put together of others.

ghost use Rattle.std.specs.Prelude.{◌≡◌, ◌++◌, IfOk, OnOk, string_bytes};
ghost use Rattle.gql_manifest.specs.Packing.{texts_joined};

use std::alloc::{AllocError, Global};

/// Adds these texts, in their order.
pub fn push_all(out: &mut String, texts: &[&str]) -> Result<(), AllocError>
    ensures { OnOk result (string_bytes out.new ≡ string_bytes out.old ++ texts_joined texts.now) }
{
    for text in texts {
        out.push_str(text)?;
    }
    Ok(())
}

/// The text that these texts are together, in their order.
pub fn text_from(alloc: Global, texts: &[&str]) -> Result<String, AllocError>
    ensures { IfOk result (λ text. string_bytes text ≡ texts_joined texts.now) }
{
    let mut out = String::new(alloc);
    push_all(&mut out, texts)?;
    Ok(out)
}
