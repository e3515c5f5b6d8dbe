//! Laws of lists of entries, for the proofs of whoever keeps an index. Their functions do nothing.

ghost use Rattle.std.specs.Prelude.{ℕ, ◌≡◌, List, []};
ghost use Rattle.std.specs.FinMap.{get, empty};
ghost use Rattle.am_record.specs.OrderedKey.{OrderedKey};
ghost use Rattle.am_record.specs.Interval.{Interval, within};
ghost use Rattle.am_record.specs.Plain.{PlainMap, rows_where};
ghost use Rattle.am_record.specs.declared.entry.Entry.{Entry};
ghost use Rattle.am_index.specs.Entries.{IsRising};
ghost use Rattle.am_index.specs.Edits.{EditLaws};
ghost use Rattle.am_index.specs.Walks.{WalkLaws, ReadLaws};
ghost use Rattle.am_index.specs.Runs.{RunLaws};
ghost use Rattle.am_index.specs.Content.{content, rows_in, LivesInOne, OnePlace, HasContent, HasOne, values_at};
ghost use Rattle.am_index.specs.Content.{ContentLaws, RowsRead};

/// What insertion, setting and removal do to a rising list, place by place.
pub fn edits_follow()
    ensures { (es : List Entry) → IsRising es → EditLaws es }
{}

/// What the walks over a rising list find, in terms of what stands at each place.
pub fn walks_follow()
    ensures { (es : List Entry) → IsRising es → WalkLaws es }
{}

/// What is read from a key on in a rising list, in terms of what stands next and at each place.
pub fn reads_follow()
    ensures { (es : List Entry) → IsRising es → ReadLaws es }
{}

/// What the content of a list is, and what edits of the list do to it.
pub fn content_follows()
    ensures edits { (es : List Entry) → IsRising es → OnePlace es → ContentLaws es }
    ensures places { (es : List Entry) (m : PlainMap) → IsRising es →
        ((key : OrderedKey) → HasOne (values_at es key) (get m key)) → HasContent es m }
    ensures nothing { HasContent [] empty }
{}

/// What the rows of a partition are: what is live in it, by rising key. They are those of the content, where nothing of
/// the range is live elsewhere.
pub fn rows_follow()
    ensures reads { (es : List Entry) (part : ℕ) (range : Interval) → IsRising es → RowsRead es part range }
    ensures alone { (es : List Entry) (part : ℕ) (range : Interval) → IsRising es → OnePlace es →
        LivesInOne es part range → rows_in es part range ≡ rows_where (within range) (content es) }
{}

/// Where the records of a run stand, and where nothing stands.
pub fn runs_follow()
    ensures { (es : List Entry) → IsRising es → RunLaws es }
{}
