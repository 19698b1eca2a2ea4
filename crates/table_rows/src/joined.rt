//! Texts joined with a text between any two.
ghost use Rattle.std.specs.Prelude.{◌≡◌, ◌≢◌, ◌++◌, [], OnOk, string_bytes};

use std::alloc::{AllocError, Global};

/// Adds a text to others, with a text between any two.
pub fn join(texts: &mut String, between: &str, text: &str) -> Result<(), AllocError>
    ensures first { OnOk result (string_bytes texts.old ≡ []
        → string_bytes texts.new ≡ text.now) }
    ensures further { OnOk result (string_bytes texts.old ≢ []
        → string_bytes texts.new ≡ string_bytes texts.old ++ between.now ++ text.now) }
{
    if !texts.is_empty() {
        texts.push_str(between)?;
    }
    texts.push_str(text)
}

/// One text, put together of its parts.
pub fn text_of(alloc: Global, parts: &[&str]) -> Result<String, AllocError> {
    let mut text = String::new(alloc);
    for part in parts {
        text.push_str(*part)?;
    }
    Ok(text)
}
