//! The words that replies begin with, and the codes of refusals, as they are read.

ghost use Rattle.std.specs.Prelude.{◌≡◌, Some, None, cond, bytes_eq};
ghost use Rattle.am_line_text.specs.ReplyWords.{word_text};
ghost use Rattle.am_trace_text.specs.FieldReadings.{refusal_for, word_for};

use am_line_text::{ReplyWord, refusal_code};
use am_record::Refusal;

const WORDS: [ReplyWord; 18] = [
    ReplyWord::Begun,
    ReplyWord::Done,
    ReplyWord::Found,
    ReplyWord::Absent,
    ReplyWord::Rows,
    ReplyWord::Exists,
    ReplyWord::Missing,
    ReplyWord::Deleted,
    ReplyWord::Committed,
    ReplyWord::Aborted,
    ReplyWord::Moved,
    ReplyWord::MergeDone,
    ReplyWord::Ended,
    ReplyWord::Idle,
    ReplyWord::Cleaned,
    ReplyWord::NoMark,
    ReplyWord::Busy,
    ReplyWord::Error,
];

/// The refusals that have a code and can be stored.
const REFUSALS: [Refusal; 8] = [
    Refusal::NoSuchTx,
    Refusal::TooManyTx,
    Refusal::TooManyLocks,
    Refusal::TooManyOps,
    Refusal::TooManyRuns,
    Refusal::NotRising,
    Refusal::BadLimit,
    Refusal::NoMemory,
];

/// The word of a text. Those that come most often are told by their letters, which no others begin with.
pub(crate) fn word_for(text: &[u8]) -> Option<ReplyWord>
    ensures { result ≡ word_for text.now }
{
    match text.first() {
        Some(b'O') => told(ReplyWord::Done, text),
        Some(b'V') => told(ReplyWord::Found, text),
        _ => find(text),
    }
}

// The word of a text, found among all.
fn find(text: &[u8]) -> Option<ReplyWord>
    ensures { result ≡ word_for text.now }
{
    WORDS.iter().copied().find(|word| word.text() == text)
}

// The word, where the text is its own.
fn told(word: ReplyWord, text: &[u8]) -> Option<ReplyWord>
    ensures { result ≡ cond (bytes_eq (word_text word) text.now) (Some word) None }
{
    if word.text() == text {
        Some(word)
    } else {
        None
    }
}

/// The refusal of a code.
pub(crate) fn refusal_for(code: &[u8]) -> Option<Refusal>
    ensures { result ≡ refusal_for code.now }
{
    REFUSALS
        .iter()
        .copied()
        .find(|refusal| refusal_code(*refusal) == code)
}
