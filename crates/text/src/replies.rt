// What is answered to a line, as a line of its own.
ghost use Rattle.std.specs.Prelude.{◌≡◌, ◌++◌, is_ok, IfSome, if◌then◌else◌, Some};
ghost use Rattle.text.specs.Decimal.{digits};
ghost use Rattle.text.specs.Replies.{answer_line, ok_line, refusal, refusal_line};

use crate::decimal::push_digits;
use std::alloc::AllocError;
use std::fmt;
use std::fmt::Display;

// Why a line is turned away: it is not understood.
#[derive(Clone, Copy, PartialEq, Eq, Debug)]
pub struct NotUnderstood;

impl From<NotUnderstood> for u8 {
    ghost from_gives = { λ _ number. number ≡ 7 };

    fn from(_refusal: NotUnderstood) -> u8 {
        7
    }
}

// It is printed as its number.
impl Display for NotUnderstood {
    ghost output = { λ _. Some (digits 7) };

    fn fmt<W: fmt::Write>(&self, f: &mut fmt::Formatter<W>) -> fmt::Result {
        u8::from(*self).fmt(f)
    }
}

// Appends `ok` and the end of the line.
pub fn put_ok(out: &mut Vec<u8>) -> Result<(), AllocError>
    ensures { out.new.items ≡ (if is_ok result then out.old.items ++ ok_line else out.old.items) }
{
    out.extend_from_slice(b"ok\n")
}

// Appends `no`, a space, the refusal and the end of the line, all or none of them.
pub fn put_refusal<R: Display + Drop>(out: &mut Vec<u8>, refusal: R) -> Result<(), AllocError>
    ensures { IfSome (R.output refusal) (λ text. out.new.items ≡ (if is_ok result then out.old.items ++ refusal_line text else out.old.items)) }
{
    let line = format!(in *out.allocator(); "no {refusal}\n")?;
    out.extend_from_slice(line.as_bytes())
}

// Appends `ok`, or `no` and the refusal, as a line of its own.
pub fn put_answer<R: Display + Drop>(
    out: &mut Vec<u8>,
    answer: Result<(), R>,
) -> Result<(), AllocError>
    ensures { IfSome (answer_line R.output answer) (λ line. out.new.items ≡ (if is_ok result then out.old.items ++ line else out.old.items)) }
{
    match answer {
        Ok(()) => put_ok(out),
        Err(refusal) => put_refusal(out, refusal),
    }
}

// Appends the line of `put_refusal` for a refusal of this number, all or none of it. Nothing is formatted or allocated for it apart, since a
// script may print such a line for each of its own.
pub fn put_number(out: &mut Vec<u8>, number: u8) -> Result<(), AllocError>
    ensures { out.new.items ≡ (if is_ok result then out.old.items ++ refusal number else out.old.items) }
{
    // Three bytes, at most ten digits, and the end of the line.
    out.reserve(14)?;
    out.push_reserved(b'n');
    out.push_reserved(b'o');
    out.push_reserved(b' ');
    push_digits(out, u32::from(number));
    out.push_reserved(b'\n');
    Ok(())
}
