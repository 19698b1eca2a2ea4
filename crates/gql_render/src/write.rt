//! Texts and numbers, written to the end of a text.
ghost use Rattle.std.specs.List.{flat_map};
ghost use Rattle.std.specs.Prelude.{◌≡◌, ◌++◌, OnOk, decimal, string_bytes};

use std::alloc::AllocError;

/// Writes a text as it is.
pub fn write_text(out: &mut String, text: &str) -> Result<(), AllocError>
    ensures { OnOk result (string_bytes out.new ≡ string_bytes out.old ++ text.now) }
{
    out.push_str(text)
}

/// Writes texts, one after the other.
pub fn write_texts(out: &mut String, texts: &[&str]) -> Result<(), AllocError>
    ensures { OnOk result (string_bytes out.new
        ≡ string_bytes out.old ++ flat_map (λ t. t.now) texts.now) }
{
    for text in texts {
        out.push_str(text)?;
    }
    Ok(())
}

/// Writes a whole number.
pub fn write_number(out: &mut String, number: usize) -> Result<(), AllocError>
    ensures { OnOk result (string_bytes out.new ≡ string_bytes out.old ++ decimal number) }
{
    let mut digits = itoa::Buffer::new();
    out.push_str(digits.format(number))
}
