//! Requests from bytes.

ghost use Rattle.std.specs.Prelude.{◌≡◌, ℕ, ◌≤◌, List, [], ◌∷◌, ◌++◌, ◌⊎◌, length, IfSome, IfNone};
ghost use Rattle.std.specs.Prelude.{IfOk, IfErr};
ghost use Rattle.am_line_text.specs.Numbers.{numeral};
ghost use Rattle.am_resp_text.specs.Limits.{max_word_bytes};
ghost use Rattle.am_resp_text.specs.Counts.{crlf, count_line, bulk_text, HasNoCr, text_number};
ghost use Rattle.am_resp_text.specs.Requests.{words_text, request_text, IsRequest, HasShortWords};
ghost use Rattle.am_resp_text.specs.Requests.{IsCountLine, IsWordText, AreWordsText, IsRequestText};
ghost use Rattle.am_resp_text.specs.Gaps.{IsGap, IsRequestFault};

use crate::fault::{Gap, RequestFault};
use crate::words::Words;
use am_line_text::{parse_number, position_of};
use std::alloc::Global;

/// The most words that a request may have.
pub const MAX_WORDS: u64 = 131_073;

/// The most bytes that a word may have.
pub const MAX_WORD_BYTES: u64 = 536_870_912;

/// What stands behind the byte at the front.
///
/// # Errors
/// Incomplete where no byte is there, Bad where another is.
pub fn read_byte(bytes: &[u8], byte: u8) -> Result<&[u8], Gap>
    ensures whole { IfOk result (λ rest. bytes.now ≡ byte ∷ rest.now) }
    ensures gap { IfErr result (IsGap (λ text. text ≡ byte ∷ []) bytes.now) }
{
    let Some((first, rest)) = bytes.split_first() else {
        return Err(Gap::Incomplete);
    };
    if *first != byte {
        return Err(Gap::Bad);
    }
    Ok(rest)
}

// What stands behind a CR LF at the front.
fn read_crlf(bytes: &[u8]) -> Result<&[u8], Gap>
    ensures whole { IfOk result (λ rest. bytes.now ≡ crlf ++ rest.now) }
    ensures gap { IfErr result (IsGap (λ text. text ≡ crlf) bytes.now) }
{
    let behind = read_byte(bytes, b'\r')?;
    let rest = read_byte(behind, b'\n')?;
    Ok(rest)
}

// The bytes before the first CR, and what stands from it on; all where there is none.
fn split_at_cr(bytes: &[u8]) -> (&[u8], &[u8])
    ensures whole { bytes.now ≡ result.0.now ++ result.1.now }
    ensures front { HasNoCr result.0.now }
    ensures behind { (result.1.now ≡ []) ⊎ ((rest : List ℕ) × (result.1.now ≡ 13 ∷ rest)) }
{
    match position_of(b'\r', bytes) {
        Some(end) => bytes.split_at(end),
        None => (bytes, &[]),
    }
}

// The number whose text this is, where it has 64 bits at most.
fn number_of(digits: &[u8]) -> Option<u64>
    ensures { result ≡ text_number digits.now }
{
    match parse_number(digits) {
        Ok(number) => number,
        Err(_) => None,
    }
}

// The same, where it is no greater than the most.
fn number_within(digits: &[u8], most: u64) -> Option<u64>
    ensures some { IfSome result (λ n. (n ≤ most) × (digits.now ≡ numeral n)) }
    ensures none { IfNone result ((n : ℕ) → n ≤ most → digits.now ≡ numeral n → ⊥) }
{
    let number = number_of(digits)?;
    if number > most {
        return None;
    }
    Some(number)
}

/// The number of the count line at the front, which is no greater than the most, and what stands behind it. Its mark
/// comes first.
///
/// # Errors
/// Incomplete where the bytes are the beginning of such a line, Bad where none begins so, whatever comes.
pub fn read_count(bytes: &[u8], mark: u8, most: u64) -> Result<(u64, &[u8]), Gap>
    ensures few { IfOk result (λ p. p.0 ≤ most) }
    ensures whole { IfOk result (λ p. bytes.now ≡ count_line mark p.0 ++ p.1.now) }
    ensures gap { IfErr result (IsGap (IsCountLine mark most) bytes.now) }
{
    let behind = read_byte(bytes, mark)?;
    if behind.is_empty() {
        return Err(Gap::Incomplete);
    }
    let (digits, end) = split_at_cr(behind);
    let Some(number) = number_within(digits, most) else {
        return Err(Gap::Bad);
    };
    let rest = read_crlf(end)?;
    Ok((number, rest))
}

// The word at the front, and what stands behind it.
fn read_word(bytes: &[u8]) -> Result<(&[u8], &[u8]), Gap>
    ensures short { IfOk result (λ p. length p.0.now ≤ max_word_bytes) }
    ensures whole { IfOk result (λ p. bytes.now ≡ bulk_text p.0.now ++ p.1.now) }
    ensures gap { IfErr result (IsGap IsWordText bytes.now) }
{
    let (len, behind) = read_count(bytes, b'$', MAX_WORD_BYTES)?;
    let len = len as usize;
    if behind.len() < len {
        return Err(Gap::Incomplete);
    }
    let (word, end) = behind.split_at(len);
    let rest = read_crlf(end)?;
    Ok((word, rest))
}

// So many words from the front on, and what stands behind them.
fn read_words(alloc: Global, bytes: &[u8], count: u64) -> Result<(Words<'_>, &[u8]), RequestFault>
    ensures count { IfOk result (λ p. length p.0 ≡ count) }
    ensures short { IfOk result (λ p. HasShortWords p.0) }
    ensures whole { IfOk result (λ p. bytes.now ≡ words_text p.0 ++ p.1.now) }
    ensures fault { IfErr result (IsRequestFault (AreWordsText count) bytes.now) }
{
    let mut words = Words::new(alloc);
    let mut rest = bytes;
    for _ in 0..count {
        let (word, behind) = read_word(rest)?;
        words.push(word)?;
        rest = behind;
    }
    Ok((words, rest))
}

/// The words of the request at the front, and what stands behind it: these alone, as [`bytes_are_read_in_one_way`]
/// says. A request of no words is one too.
///
/// # Errors
/// Incomplete where the bytes are the beginning of a request, Bad where no request begins so, whatever comes, and
/// NoMemory, which alone depends on more than the bytes.
///
/// [`bytes_are_read_in_one_way`]: crate::bytes_are_read_in_one_way
pub fn read_request(alloc: Global, bytes: &[u8]) -> Result<(Words<'_>, &[u8]), RequestFault>
    ensures bounds { IfOk result (λ p. IsRequest p.0) }
    ensures whole { IfOk result (λ p. bytes.now ≡ request_text p.0 ++ p.1.now) }
    ensures fault { IfErr result (IsRequestFault IsRequestText bytes.now) }
{
    let (count, behind) = read_count(bytes, b'*', MAX_WORDS)?;
    let (words, rest) = read_words(alloc, behind, count)?;
    Ok((words, rest))
}
