// Bytes in hexadecimal.
ghost use Rattle.std.specs.Prelude.{◌≡◌, ℕ, ◌<◌, [], ◌∷◌, ◌++◌, is_ok, if◌then◌else◌, Some};
ghost use Rattle.text.specs.Hexadecimal.{digit_code, hex, hex_byte, hex_digit};

use crate::fields::FromField;
use std::alloc::AllocError;

// Two digits, of either case.
impl FromField for u8 {
    ghost reads = { hex_byte };

    fn from_field(field: &[u8]) -> Option<u8> {
        let [high, low] = field else {
            return None;
        };
        let high = digit_value(*high)?;
        let low = digit_value(*low)?;
        Some((16 * high + low) as u8)
    }
}

fn digit_value(b: u8) -> Option<u32>
    ensures { result ≡ hex_digit b }
{
    char::from(b).to_digit(16)
}

// Appends two digits a byte, all or none of them. What is written of a byte reads back as it.
pub fn put_hex(out: &mut Vec<u8>, bytes: &[u8]) -> Result<(), AllocError>
    ensures back { (b : ℕ) → b < 256 → hex_byte (hex (b ∷ [])) ≡ Some b }
    ensures items { out.new.items ≡ (if is_ok result then out.old.items ++ hex bytes.now else out.old.items) }
{
    // Not by `write!` and `{b:02x}`, which takes some forty times as long.
    out.reserve(2 * bytes.len())?;
    for b in bytes {
        out.push_reserved(digit_byte(*b / 16));
        out.push_reserved(digit_byte(*b % 16));
    }
    Ok(())
}

fn digit_byte(d: u8) -> u8
    requires { d < 16 }
    ensures { result ≡ digit_code d }
{
    if d < 10 { b'0' + d } else { b'a' + d - 10 }
}
