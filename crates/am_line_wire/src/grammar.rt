//! What holds of the lines' grammar, whatever reads them.

ghost use Rattle.std.specs.Prelude.{◌≡◌, ◌≢◌, ◌^◌, ◌<◌, ℕ, List, Result, Ok, Err, decimal};
ghost use Rattle.am_line_text.specs.Numbers.{numeral};
ghost use Rattle.am_line_wire.specs.Grammar.{Form, IsProper, spelling, Reads};
ghost use Rattle.am_line_wire.specs.LineReadings.{reading, MayRead};
ghost use Rattle.am_line_wire.specs.Visible.{AsksVisible};

use crate::request::Request;
use am_line_text::LineFault;

/// Each line has one reading, the one by its fields, and no line is that of two forms. Memory may be refused of what
/// brings records alone. The records that a line brings or writes are visible, and the text of a number is what is
/// printed of it.
pub fn one_reading()
    ensures one_form { (a b : Form) →
        IsProper a → IsProper b → spelling a ≡ spelling b → a ≡ b }
    ensures one_result { (line : List ℕ) (r s : Result Request LineFault) →
        Reads line r → Reads line s →
        r ≢ Err LineFault.NoMemory → s ≢ Err LineFault.NoMemory → r ≡ s }
    ensures by_fields { (line : List ℕ) → Reads line (reading line) }
    ensures memory { (line : List ℕ) →
        Reads line (Err LineFault.NoMemory) → MayRead (reading line) (Err LineFault.NoMemory) }
    ensures visible { (line : List ℕ) (request : Request) →
        Reads line (Ok request) → AsksVisible request }
    ensures printed { (n : ℕ) → n < 2 ^ 64 → numeral n ≡ decimal n }
{}
