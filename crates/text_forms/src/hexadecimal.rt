//! Numbers in hexadecimal.
ghost use Rattle.std.specs.Prelude.{◌≡◌, ◌++◌, IfOk, OnOk};
ghost use Rattle.std.specs.String.{string_bytes};
ghost use Rattle.text_forms.specs.Hexadecimal.{byte_code, number_text as number_text_of};

use std::alloc::{AllocError, Global};

/// Appends a byte as `\x` and two hexadecimal digits.
pub(crate) fn push_code(alloc: Global, text: &mut String, byte: u8) -> Result<(), AllocError>
    ensures { OnOk result (string_bytes text.new ≡ string_bytes text.old ++ byte_code byte) }
{
    text.push_str("\\x")?;
    text.push_str(hex::encode(alloc, &[byte])?.as_str())
}

/// Returns a number of 2 bytes, such as `0xc02f`.
pub fn number_text(alloc: Global, number: u16) -> Result<String, AllocError>
    ensures { IfOk result (λ text. string_bytes text ≡ number_text_of number) }
{
    let mut text = String::from_str(alloc, "0x")?;
    text.push_str(hex::encode(alloc, &number.to_be_bytes())?.as_str())?;
    Ok(text)
}
