ghost use Rattle.std.specs.Prelude.{◌≡◌, ℕ, List, ◌∷◌, ◌++◌, IfOk, IfSome, OnOk};
ghost use Rattle.drill.specs.Playing.{drilled, first_understood, line_answered, printed, set_up, transcript};
ghost use Rattle.setup.specs.Setup.{setup_checked, setup_taken};
ghost use Rattle.text.specs.Pieces.{fields};
ghost use Rattle.text.specs.Replies.{refusal_line};
ghost use Rattle.std.proofs.Common.{rules};

use crate::drill::Drill;
use crate::reading::read_instruction;
use setup::line::{Setup, read_setup};
use std::alloc::{AllocError, Global};
use std::fmt::Display;
use text::fields::Fields;
use text::lines::{Player, first_line, play_lines};
use text::replies::{NotUnderstood, put_number, put_refusal};

// What a whole script prints: its first line sets a drive up, and the others are played on it.
pub fn play(heap: Global, script: &[u8]) -> Result<Vec<u8>, AllocError>
    ensures { IfOk result (λ v. v.items ≡ transcript script.now) }
{
    let Some((line, rest)) = first_line(script) else {
        return refused(heap, NotUnderstood);
    };
    let Some(setup) = read_first(line) else {
        return refused(heap, NotUnderstood);
    };
    play_on(heap, setup, rest)
}

fn play_on(heap: Global, setup: Setup, lines: &[u8]) -> Result<Vec<u8>, AllocError>
    ensures { IfOk result (λ v. v.items ≡ set_up setup lines.now (setup_checked setup)) }
{
    if let Err(refusal) = setup.check() {
        return refused(heap, refusal);
    }
    let drive = setup.make(heap)?;
    play_lines(Drill { drive, heap }, heap, lines)
}

fn read_first(line: &[u8]) -> Option<Setup>
    ensures { result ≡ first_understood (setup_taken (fields line.now)) }
{
    let mut rest = Fields::new(line);
    let setup = read_setup(&mut rest)?;
    rest.end()?;
    Some(setup)
}

// The one line that a script of which nothing is played prints.
fn refused<R: Display + Drop>(heap: Global, refusal: R) -> Result<Vec<u8>, AllocError>
    ensures { IfOk result (λ v. IfSome (R.output refusal) (λ text. v.items ≡ refusal_line text)) }
{
    let mut out = Vec::new(heap);
    put_refusal(&mut out, refusal)?;
    Ok(out)
}

impl Player for Drill {
    ghost prints = { drilled };

    ghost quiet = { Prim.search rules };

    // Besides what every player promises: the drill after the line, which the lines after it may not show.
    fn answer(&mut self, line: &[u8], out: &mut Vec<u8>) -> Result<(), AllocError>
        ensures prints { OnOk result ((rest : List (List ℕ)) → out.old.items ++ drilled self.old (line.now ∷ rest) ≡ out.new.items ++ drilled self.new rest) }
        ensures drill { OnOk result (printed (line_answered self.old line.now) out.old.items ≡ (self.new, out.new.items)) }
    {
        match read_instruction(line) {
            Some(instruction) => self.obey(instruction, out),
            None => put_number(out, u8::from(NotUnderstood)),
        }
    }
}
