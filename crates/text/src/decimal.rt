// Numbers in decimal.
ghost use Rattle.std.specs.Prelude.{◌≡◌, ◌+◌, ◌<◌, ◌≤◌, ◌++◌, length, is_ok, if◌then◌else◌, Some, vec_len, vec_capacity};
ghost use Rattle.text.specs.Decimal.{decimal, decimal_after, digits};

use crate::fields::FromField;
use std::alloc::AllocError;

// A number of one to five digits, with no leading zero.
impl FromField for u32 {
    ghost reads = { decimal };

    fn from_field(field: &[u8]) -> Option<u32> {
        if field.is_empty() || field.len() > 5 {
            return None;
        }
        if field.len() > 1 && field[0] == b'0' {
            return None;
        }
        digits_value(field)
    }
}

fn digits_value(digits: &[u8]) -> Option<u32>
    requires { length digits.now ≤ 5 }
    ensures { result ≡ decimal_after 0 digits.now }
{
    // As a `try_fold` it would be no plainer: its closure would have to be shown to stay in bounds at any number.
    let mut n = 0;
    for b in digits {
        n = 10 * n + char::from(*b).to_digit(10)?;
    }
    Some(n)
}

// Appends the digits of `n`, all or none of them. They read back as `n`, where they are at most five.
pub fn put_decimal(out: &mut Vec<u8>, n: u32) -> Result<(), AllocError>
    ensures back { n < 100000 → decimal (digits n) ≡ Some n }
    ensures items { out.new.items ≡ (if is_ok result then out.old.items ++ digits n else out.old.items) }
{
    out.reserve(10)?;
    push_digits(out, n);
    Ok(())
}

// Not by `to_string`, which allocates: it takes twice as long.
pub(crate) fn push_digits(out: &mut Vec<u8>, n: u32)
    requires { vec_len out.old + length (digits n) ≤ vec_capacity out.old }
    ensures items { out.new.items ≡ out.old.items ++ digits n }
    ensures len { vec_len out.new ≡ vec_len out.old + length (digits n) }
    ensures capacity { vec_capacity out.new ≡ vec_capacity out.old }
{
    if n >= 10 {
        push_digits(out, n / 10);
    }
    out.push_reserved(b'0' + (n % 10) as u8);
}
