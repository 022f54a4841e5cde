// The lines of a text, each ended by byte 10, and what is printed for them.
ghost use Rattle.std.specs.Prelude.{◌≡◌, ℕ, List, [], ◌∷◌, ◌++◌, IfOk, if◌then◌else◌, OnOk};
ghost use Rattle.std.specs.Option.{option_map};
ghost use Rattle.text.specs.Pieces.{all_ended, both_now, cut_at, ended_lines};
ghost use Rattle.text.specs.Replies.{not_understood};

use crate::cut::cut;
use crate::replies::{NotUnderstood, put_refusal};
use std::alloc::{AllocError, Global};

// The first line, without its byte 10, and what stands after it.
pub fn first_line(text: &[u8]) -> Option<(&[u8], &[u8])>
    ensures { option_map both_now result ≡ cut_at 10 text.now }
{
    cut(text, b'\n')
}

// Whoever answers lines, one by one.
pub trait Player {
    // What it prints for these lines, in turn.
    ghost prints: { Self → List (List ℕ) → List ℕ };

    // Answers one line, given without its byte 10: what it prints is added to `out`.
    fn answer(&mut self, line: &[u8], out: &mut Vec<u8>) -> Result<(), AllocError>
        ensures { OnOk result ((rest : List (List ℕ)) → out.old.items ++ prints self.old (line.now ∷ rest) ≡ out.new.items ++ prints self.new rest) };

    ghost quiet: { (s : Self) → prints s [] ≡ [] };
}

// What `player` prints for the lines of `text`. Bytes after the last byte 10 are a line that is not understood.
pub fn play_lines<P: Player + Drop>(
    mut player: P,
    heap: Global,
    text: &[u8],
) -> Result<Vec<u8>, AllocError>
    ensures { IfOk result (λ v. v.items ≡ P.Player.prints player (ended_lines text.now) ++ (if all_ended text.now then [] else not_understood)) }
{
    let mut out = Vec::new(heap);
    let mut left = text;
    // Each turn takes a line off the text; there is no index.
    while let Some((line, rest)) = first_line(left) {
        player.answer(line, &mut out)?;
        left = rest;
    }
    if !left.is_empty() {
        put_refusal(&mut out, NotUnderstood)?;
    }
    Ok(out)
}
