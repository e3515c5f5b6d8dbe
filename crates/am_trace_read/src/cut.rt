//! Texts, cut at a byte.

ghost use Rattle.std.specs.Prelude.{◌≡◌, ◌∷◌, ◌++◌, true, IfSome, IfNone};
ghost use Rattle.am_trace_text.specs.Cuts.{has_no};

use am_line_text::position_of;

/// What stands before the first byte of this kind, and what stands after it.
pub(crate) fn cut(text: &[u8], at: u8) -> Option<(&[u8], &[u8])>
    ensures cut { IfSome result (λ p. text.now ≡ p.0.now ++ at ∷ p.1.now) }
    ensures first { IfSome result (λ p. has_no at p.0.now ≡ true) }
    ensures none { IfNone result (has_no at text.now ≡ true) }
{
    let place = position_of(at, text)?;
    Some((&text[..place], &text[place + 1..]))
}
