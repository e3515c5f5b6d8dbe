//! The fields of a line.

ghost use Rattle.std.specs.Prelude.{◌≡◌, ◌∷◌, [], MatchResult, option_copied};
ghost use Rattle.am_line_text.specs.Fields.{line_fields, fields_left, HasField};

use crate::fault::LineFault;
use crate::place::position_of;
use std::marker::Model;

/// The fields of a line that are still to be read. A space parts two fields, so a field may be empty.
#[derive(Drop)]
pub struct Fields<'a> {
    rest: Option<&'a [u8]>,
}

impl<'a> Model for Fields<'a> {
    ghost use Rattle.std.specs.Prelude.{ℕ, List, option_copied};
    ghost use Rattle.am_line_text.specs.Fields.{fields_left};

    ghost Value = { List (List ℕ) };

    ghost view = { λ f. fields_left (option_copied f.rest) };
}

impl<'a> Fields<'a> {
    /// All fields of a line, one at least.
    pub fn new(line: &'a [u8]) -> Fields<'a>
        ensures { result ≡ line_fields line.now }
    {
        Fields { rest: Some(line) }
    }

    /// The next field; Syntax where none is left.
    pub fn next(&mut self) -> Result<&'a [u8], LineFault>
        ensures { MatchResult result
            (λ f. self.old ≡ f.now ∷ self.new)
            (λ e. (self.old ≡ []) × (e ≡ LineFault.Syntax)) }
    {
        let rest = self.rest.ok_or(LineFault::Syntax)?;
        let (field, more) = split_field(rest);
        self.rest = more;
        Ok(field)
    }

    /// Syntax where a field is left.
    pub fn end(&self) -> Result<(), LineFault>
        ensures { MatchResult result
            (λ _. self.now ≡ [])
            (λ e. HasField self.now × (e ≡ LineFault.Syntax)) }
    {
        match self.rest {
            None => Ok(()),
            Some(_) => Err(LineFault::Syntax),
        }
    }
}

// The first field of a text, and what stands after its space, where it has one.
fn split_field(text: &[u8]) -> (&[u8], Option<&[u8]>)
    ensures { line_fields text.now ≡ result.0.now ∷ fields_left (option_copied result.1) }
{
    match position_of(b' ', text) {
        Some(space) => (&text[..space], Some(&text[space + 1..])),
        None => (text, None),
    }
}
