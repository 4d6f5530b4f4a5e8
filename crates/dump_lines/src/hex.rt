//! Bytes in hex.
ghost use Rattle.std.specs.Prelude.{◌≡◌, ◌++◌, ◌<◌, OnOk};
ghost use Rattle.dump_lines.specs.Hex as spec;

use copy_lists::{NoMemory, Text};

/// A digit in lower case.
fn hex_digit(n: u8) -> u8
    requires { n < 16 }
    ensures { result ≡ spec.hex_digit n }
{
    if n < 10 { b'0' + n } else { b'a' - 10 + n }
}

/// Appends the two digits of a byte.
pub fn push_hex_byte(text: &mut Text, byte: u8) -> Result<(), NoMemory>
    ensures { OnOk result (text.new ≡ text.old ++ spec.hex_byte byte) }
{
    text.extend(&[hex_digit(byte / 16), hex_digit(byte % 16)])
}

/// Appends the digits of bytes, with nothing between them.
#[tactic(auto, using(crate::proofs::Pieces::one_more))]
pub fn push_hex(text: &mut Text, bytes: &[u8]) -> Result<(), NoMemory>
    ensures { OnOk result (text.new ≡ text.old ++ spec.hex bytes.now) }
{
    for byte in bytes {
        push_hex_byte(text, *byte)?;
    }
    Ok(())
}
