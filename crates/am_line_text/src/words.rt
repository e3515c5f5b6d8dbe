//! What holds of the words of lines, whatever reads them.

ghost use Rattle.std.specs.Prelude.{◌≡◌, ◌^◌, ◌<◌, ◌∷◌, ℕ, List, true, Some, decimal};
ghost use Rattle.std.specs.List.{AllByRecursion, join_with_byte};
ghost use Rattle.am_record.specs.declared.lock.Mode.{Mode};
ghost use Rattle.am_line_text.specs.Numbers.{is_numeral, numeral_value, number_for, IsNumeralOf};
ghost use Rattle.am_line_text.specs.Locks.{mode_word, mode_for};
ghost use Rattle.am_line_text.specs.Verbs.{word_of, verb_for};
ghost use Rattle.am_line_text.specs.Fields.{line_fields, has_no_space};

use crate::verb::Verb;

/// Words that a space parts are the fields of their line, and the texts of numbers, verbs and modes are read as what
/// they are texts of: for whoever writes lines of their own with these words.
pub fn words_are_fields()
    ensures fields { (word : List ℕ) (words : List (List ℕ)) → has_no_space word ≡ true →
        AllByRecursion (λ w. has_no_space w ≡ true) words →
        line_fields (join_with_byte 32 (word ∷ words)) ≡ word ∷ words }
    ensures line { (line : List ℕ) → join_with_byte 32 (line_fields line) ≡ line }
    ensures number { (text : List ℕ) (n : ℕ) →
        is_numeral text ≡ true → number_for (numeral_value text) ≡ Some n → text ≡ decimal n }
    ensures decimal { (n : ℕ) → n < 2 ^ 64 → IsNumeralOf (decimal n) n }
    ensures verb { (word : List ℕ) (verb : Verb) → verb_for word ≡ Some verb → word_of verb ≡ word }
    ensures verb_word { (verb : Verb) → verb_for (word_of verb) ≡ Some verb }
    ensures mode { (field : List ℕ) (mode : Mode) → mode_for field ≡ Some mode → mode_word mode ≡ field }
    ensures mode_word { (mode : Mode) → mode_for (mode_word mode) ≡ Some mode }
{}
