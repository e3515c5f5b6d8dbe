//! Lines of HTTP, which no session answers.

ghost use Rattle.std.specs.Prelude.{◌≡◌, ◌-◌, ◌≤◌, length, not, true, nat_eq};
ghost use Rattle.std.specs.Char.{is_ascii_whitespace};
ghost use Rattle.std.specs.List.{list_any, list_all, starts_with, suffix_len};
ghost use Rattle.am_serve_connections.specs.Http.{begins_in_any_case, has_two_words, is_digit_or_dot, is_number};
ghost use Rattle.am_serve_connections.specs.Http.{is_version};
ghost use Rattle.am_serve_connections.specs.Http.{ends_request, is_request_line, is_host_line, is_of_http};

/// A longer line is answered as such, and none of HTTP.
const MAX_LINE_LEN: usize = 4096;

/// How those lines of the protocol begin that may end in a version.
const OWN_FRONTS: [&[u8]; 5] = [b"INS ", b"REP ", b"SET ", b"LOCK S ", b"LOCK X "];

/// Whether a line, which may have a CR at its end, is one of HTTP: a request, or the header that names a host.
#[tactic(auto, unfolding(crate::specs::Http::is_of_http))]
pub(crate) fn is_of_http(line: &[u8]) -> bool
    ensures { result ≡ is_of_http line.now }
{
    is_host_line(line) || (line.len() <= MAX_LINE_LEN && is_request_line(line))
}

fn is_host_line(line: &[u8]) -> bool
    ensures { result ≡ is_host_line line.now }
{
    begins_in_any_case(line, b"host:")
}

fn is_request_line(line: &[u8]) -> bool
    ensures { result ≡ is_request_line line.now }
{
    ends_request(line.trim_ascii_end()) && !begins_with_any(line, &OWN_FRONTS)
}

// Whether a text, which no blank ends, ends as a request does. Its last word nearly always tells.
fn ends_request(text: &[u8]) -> bool
    ensures { result ≡ ends_request text.now }
{
    let start = last_word_start(text);
    is_version(&text[start..]) && has_two_words(&text[..start.saturating_sub(1)])
}

// Where the last word begins of a text that no blank ends.
fn last_word_start(text: &[u8]) -> usize
    ensures start { result ≡ length text.now - suffix_len (λ byte. not (is_ascii_whitespace byte)) text.now }
    ensures within { result ≤ length text.now }
{
    let mut start = text.len();
    'bytes: while start > 0 && !text[start - 1].is_ascii_whitespace() {
        start -= 1;
    }
    start
}

fn has_two_words(text: &[u8]) -> bool
    ensures { result ≡ has_two_words text.now }
{
    has_blank(text.trim_ascii())
}

fn has_blank(text: &[u8]) -> bool
    ensures { result ≡ list_any is_ascii_whitespace text.now }
{
    text.iter().any(|byte| byte.is_ascii_whitespace())
}

fn is_version(word: &[u8]) -> bool
    ensures { result ≡ is_version word.now }
{
    begins_in_any_case(word, b"http/") && is_number(&word[5..])
}

fn is_number(text: &[u8]) -> bool
    ensures { result ≡ is_number text.now }
{
    match text.split_first() {
        Some((first, rest)) => first.is_ascii_digit() && are_digits_and_dots(rest),
        None => false,
    }
}

fn are_digits_and_dots(text: &[u8]) -> bool
    ensures { result ≡ list_all is_digit_or_dot text.now }
{
    text.iter().all(|byte| is_digit_or_dot(*byte))
}

fn is_digit_or_dot(byte: u8) -> bool
    ensures { result ≡ is_digit_or_dot byte }
{
    byte.is_ascii_digit() || byte == b'.'
}

// Whether a text begins with these small letters, in any case.
fn begins_in_any_case(text: &[u8], letters: &[u8]) -> bool
    ensures begins { result ≡ begins_in_any_case text.now letters.now }
    ensures long { result ≡ true → length letters.now ≤ length text.now }
{
    let Some((letter, letters)) = letters.split_first() else {
        return true;
    };
    let Some((byte, text)) = text.split_first() else {
        return false;
    };
    byte.to_ascii_lowercase() == *letter && begins_in_any_case(text, letters)
}

fn begins_with_any(text: &[u8], fronts: &[&[u8]]) -> bool
    ensures { result ≡ list_any (λ front. starts_with nat_eq text.now front.now) fronts.now }
{
    fronts.iter().any(|front| text.starts_with(front))
}
