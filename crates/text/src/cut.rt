// A text in two at a mark.
ghost use Rattle.std.specs.Prelude.{◌≡◌};
ghost use Rattle.std.specs.Option.{option_map};
ghost use Rattle.text.specs.Pieces.{cut_at, both_now};

// What stands before the first `mark`, and what stands after it: a `split_once`, which slices have not.
pub fn cut(text: &[u8], mark: u8) -> Option<(&[u8], &[u8])>
    ensures { option_map both_now result ≡ cut_at mark text.now }
{
    let i = text.iter().position(|b| *b == mark)?;
    Some((&text[..i], &text[i + 1..]))
}
