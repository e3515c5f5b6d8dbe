//! What holds of the texts, whatever reads or writes them.

ghost use Rattle.std.specs.Prelude.{◌≡◌, ℕ, List, ◌∷◌, ◌++◌, length, Result};
ghost use Rattle.std.specs.List.{AllByRecursion, flat_map};
ghost use Rattle.am_resp_text.specs.Limits.{max_words, max_word_bytes};
ghost use Rattle.am_resp_text.specs.Answers.{parts_text, IsOneAnswer};
ghost use Rattle.am_resp_text.specs.Requests.{request_text};
ghost use Rattle.am_resp_text.specs.Gaps.{ReadsAs};
ghost use Rattle.am_resp_text.specs.declared.fault.Gap.{Gap};
ghost use Rattle.am_resp_text.specs.declared.part.Part.{Part};
ghost use Rattle.am_resp_text.specs.declared.part.Part.TheVariants.{Array};

/// What a request may have.
pub fn limits()
    ensures words { max_words ≡ 131073 }
    ensures bytes { max_word_bytes ≡ 536870912 }
{}

/// What follows the text of a request doesn't matter: it is cut in one way. So no two requests have one text, and no
/// text is a proper beginning of another.
pub fn requests_are_cut_in_one_way()
    ensures { (vs ws : List (List ℕ)) (x y : List ℕ) →
        request_text vs ++ x ≡ request_text ws ++ y → (vs ≡ ws) × (x ≡ y) }
{}

/// Bytes are one of three things: a request and what stands behind it, the beginning of one, or none. And they have one
/// request alone at their front.
pub fn bytes_are_read_in_one_way()
    ensures { (bytes : List ℕ) (a b : Result (List (List ℕ) × List ℕ) Gap) →
        ReadsAs bytes a → ReadsAs bytes b → a ≡ b }
{}

/// Nor does what follows the text of an answer.
pub fn answers_are_cut_in_one_way()
    ensures { (ps qs : List Part) (x y : List ℕ) →
        IsOneAnswer ps → IsOneAnswer qs → parts_text ps ++ x ≡ parts_text qs ++ y → (ps ≡ qs) × (x ≡ y) }
{}

/// Answers in an array, of which some may be arrays, are an answer.
pub fn arrays_are_answers()
    ensures { (answers : List (List Part)) → AllByRecursion IsOneAnswer answers →
        IsOneAnswer (Array (length answers) ∷ flat_map (λ answer. answer) answers) }
{}
