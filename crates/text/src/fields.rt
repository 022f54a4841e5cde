// The fields of a line, with one space between two of them.
ghost use Rattle.std.specs.Prelude.{◌≡◌, ℕ, List, Some, Option};
ghost use Rattle.std.specs.Option.{option_map};
ghost use Rattle.text.specs.Fields.{none_left, taken};
ghost use Rattle.text.specs.Pieces.{fields};

use crate::cut::cut;
use std::marker::Model;

// What a whole field can be read as.
pub trait FromField: Sized {
    // What a field of these bytes is read as, if it is understood.
    ghost reads: { List ℕ → Option Self };

    fn from_field(field: &[u8]) -> Option<Self>
        ensures { result ≡ reads field.now };
}

// The fields of a line that are not yet taken.
// The library's `split` holds a closure, whose type each caller would have to name.
#[derive(Drop)]
pub struct Fields<'a> {
    // The text from the next field on, or `None` after the last.
    rest: Option<&'a [u8]>,
}

impl<'a> Model for Fields<'a> {
    ghost use Rattle.std.specs.Prelude.{ℕ, List};

    ghost Value = { List (List ℕ) };

    ghost use Rattle.text.specs.Fields.{fields_left};

    ghost view = { λ s. fields_left s.rest };
}

impl<'a> Fields<'a> {
    pub fn new(line: &'a [u8]) -> Fields<'a>
        ensures { result ≡ fields line.now }
    {
        Fields { rest: Some(line) }
    }

    // Takes the next field.
    pub fn next_field(&mut self) -> Option<&'a [u8]>
        ensures { taken Some self.old ≡ (option_map (λ x. x.now) result, self.new) }
    {
        let line = self.rest.take()?;
        let Some((field, rest)) = cut(line, b' ') else {
            return Some(line);
        };
        self.rest = Some(rest);
        Some(field)
    }

    // Takes the next field, as what it is read as. It is taken even where it is not understood.
    pub fn take<T: FromField>(&mut self) -> Option<T>
        ensures { taken T.reads self.old ≡ (result, self.new) }
    {
        let field = self.next_field()?;
        T::from_field(field)
    }

    // `Some` where no field is left: no `bool`, so that `?` can follow.
    pub fn end(&self) -> Option<()>
        ensures { result ≡ none_left self.now }
    {
        self.rest.is_none().then_some(())
    }
}
