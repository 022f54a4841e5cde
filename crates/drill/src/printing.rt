ghost use Rattle.std.specs.Prelude.{◌≡◌, [], ◌∷◌, ◌++◌, OnOk};
ghost use Rattle.drill.specs.Playing.{in_threes, mark_line, read_reply, reply};
ghost use Rattle.text.specs.Hexadecimal.{hex};

use std::alloc::AllocError;
use text::hex::put_hex;
use text::replies::{put_number, put_ok};
use zoned::refusals::DeviceRefusal;

// `ok`, or `no` and the number: by the number, and not by text's `put_answer`, since a script prints an answer for each of its lines.
pub(crate) fn put_answer(
    out: &mut Vec<u8>,
    answer: Result<(), DeviceRefusal>,
) -> Result<(), AllocError>
    ensures { OnOk result (out.new.items ≡ out.old.items ++ reply answer) }
{
    match answer {
        Ok(()) => put_ok(out),
        Err(refusal) => put_number(out, u8::from(refusal)),
    }
}

// The bytes read, or `no` and the number. It is `put_answer` but for what it prints where the read is accepted.
pub(crate) fn put_read(
    out: &mut Vec<u8>,
    answer: Result<(), DeviceRefusal>,
    bytes: &[u8],
) -> Result<(), AllocError>
    ensures { OnOk result (out.new.items ≡ out.old.items ++ read_reply answer bytes.now) }
{
    match answer {
        Ok(()) => put_bytes(out, bytes),
        Err(refusal) => put_number(out, u8::from(refusal)),
    }
}

// The bytes in hexadecimal, as a line.
fn put_bytes(out: &mut Vec<u8>, bytes: &[u8]) -> Result<(), AllocError>
    ensures { OnOk result (out.new.items ≡ out.old.items ++ (hex bytes.now ++ (10 ∷ []))) }
{
    put_hex(out, bytes)?;
    out.push(b'\n')?;
    Ok(())
}

// A line for each three bytes.
pub(crate) fn put_threes(out: &mut Vec<u8>, bytes: &[u8]) -> Result<(), AllocError>
    ensures { OnOk result (out.new.items ≡ out.old.items ++ in_threes bytes.now) }
{
    for three in bytes.chunks_exact(3) {
        put_bytes(out, three)?;
    }
    Ok(())
}

// The mark as a word. A `Display` would want a type around the `bool`, and have this `if` in it.
pub(crate) fn put_mark(out: &mut Vec<u8>, misused: bool) -> Result<(), AllocError>
    ensures { OnOk result (out.new.items ≡ out.old.items ++ mark_line misused) }
{
    if misused {
        out.extend_from_slice(b"up\n")
    } else {
        out.extend_from_slice(b"down\n")
    }
}
