//! Texts of records: lines, each of a key, a TAB and a value.

ghost use Rattle.std.specs.Prelude.{◌≡◌, ℕ, List, ◌-◌, ◌<◌, ◌∷◌, ◌++◌, [], true, OnOk, IfOk, IfErr, Ok, is_ok, drop};
ghost use Rattle.std.specs.Prelude.{length};
ghost use Rattle.am_record.specs.OrderedKey.{OrderedKey};
ghost use Rattle.am_c_steps.specs.declared.status.Status.TheVariants.{NoMemory};
ghost use Rattle.am_c_steps.specs.Lines.{text_lines, record_of, line_given, text_given, wrong_line_of, IsWrong, IsRead};
ghost use Rattle.am_c_steps.specs.Lines.{AreLineStarts};

use crate::status::Status;
use crate::text::{key_given, value_given};
use am_record::{Key, Records, Value};
use am_store_runs::{Arrange, RecordSource, Spot};
use std::alloc::Global;
use std::marker::Model;

/// A line that is no record.
#[derive(Clone, Copy)]
pub struct WrongLine {
    /// From 1; 0 where memory was refused.
    pub number: u64,
    pub why: Status,
}

/// The lines of a text that are all records, seen as these. They are read where they lie: of each it is kept where it
/// begins.
#[derive(Drop)]
pub struct GivenLines<'a> {
    text: &'a [u8],
    starts: Vec<usize>,
}

impl<'a> Model for GivenLines<'a> {
    ghost use Rattle.std.specs.Prelude.{◌≡◌, true, is_ok};
    ghost use Rattle.am_record.specs.Records.{Records, records_code};
    ghost use Rattle.am_c_steps.specs.Lines.{text_given, AreLineStarts};
    ghost use Rattle.am_c_steps.specs.Structs.{records_given};

    ghost Value = { Records };

    ghost coded = { records_code };

    ghost view = { λ g. records_given (text_given g.text.now) };

    ghost invariant = { λ g. AreLineStarts g.text.now g.starts.items × (is_ok (text_given g.text.now) ≡ true) };
}

impl<'a> GivenLines<'a> {
    /// The records of a text, or what is wrong with the first line that isn't one; or NoMemory. The number of that line
    /// goes out, or 0.
    pub fn read(alloc: Global, text: &'a [u8], line: &mut u64) -> Result<GivenLines<'a>, Status>
        ensures { IsRead text.entry.now result line.new }
    {
        match line_starts(alloc, text) {
            Ok(starts) => {
                *line = 0;
                Ok(GivenLines { text, starts })
            }
            Err(wrong) => {
                *line = wrong.number;
                Err(wrong.why)
            }
        }
    }
}

impl<'a> RecordSource for GivenLines<'a> {
    ghost records = { λ records. records };

    fn len(&self) -> usize {
        self.starts.len()
    }

    fn key(&self, at: usize) -> Key {
        let Ok(key) = key_from(self.text, self.starts[at]) else {
            unreachable!()
        };
        key
    }

    fn get(&self, at: usize) -> (Key, Value) {
        let line = line_from(self.text, self.starts[at]);
        let Ok(pair) = line_pair(line) else {
            unreachable!()
        };
        pair
    }
}

impl<'a> Arrange for GivenLines<'a> {
    type Copied = Records;

    fn arranged(&self, _alloc: Global, _spots: &[Spot]) -> Option<Records> {
        None
    }
}

// The line that begins there.
fn line_from(text: &[u8], start: usize) -> &[u8]
    requires { start < length text.now }
    ensures { (more : List (List ℕ)) × (text_lines (drop start text.now) ≡ result.now ∷ more) }
{
    let (line, _) = first_line(&text[start..]);
    line
}

// The key of the record whose line begins there. Its end isn't looked for.
fn key_from(text: &[u8], start: usize) -> Result<Key, Status>
    requires { start < length text.now }
    ensures { (line : List ℕ) (more : List (List ℕ)) (pair : OrderedKey × List ℕ) →
        text_lines (drop start text.now) ≡ line ∷ more → line_given line ≡ Ok pair → result ≡ Ok pair.0 }
{
    let rest = &text[start..];
    match rest.iter().position(|byte| *byte == b'\t') {
        Some(tab) => key_given(&rest[..tab]),
        None => Err(Status::BadLine),
    }
}

// Where the lines begin.
fn line_starts(alloc: Global, text: &[u8]) -> Result<Vec<usize>, WrongLine>
    ensures starts { IfOk result (λ starts. AreLineStarts text.now starts.items) }
    ensures given { OnOk result (is_ok (text_given text.now) ≡ true) }
    ensures none_wrong { OnOk result (wrong_line_of text.now ≡ 0) }
    ensures wrong { IfErr result (IsWrong text.now) }
{
    let mut starts = Vec::new(alloc);
    let mut rest = text;
    while !rest.is_empty() {
        let start = text.len() - rest.len();
        let (line, behind) = first_line(rest);
        if let Err(why) = line_pair(line) {
            let number = starts.len() as u64 + 1;
            return Err(WrongLine { number, why });
        }
        push(&mut starts, start)?;
        rest = behind;
    }
    Ok(starts)
}

fn push(starts: &mut Vec<usize>, start: usize) -> Result<(), WrongLine>
    ensures pushed { OnOk result (starts.new.items ≡ starts.old.items ++ start ∷ []) }
    ensures why { IfErr result (λ wrong. wrong.why ≡ NoMemory) }
    ensures number { IfErr result (λ wrong. wrong.number ≡ 0) }
{
    if starts.push(start).is_err() {
        let why = Status::NoMemory;
        return Err(WrongLine { number: 0, why });
    }
    Ok(())
}

// The first line of a text, and what stands after its LF.
fn first_line(text: &[u8]) -> (&[u8], &[u8])
    requires { 0 < length text.now }
    ensures line { text_lines text.now ≡ result.0.now ∷ text_lines result.1.now }
    ensures rest { result.1.now ≡ drop (length text.now - length result.1.now) text.now }
    ensures fewer { length result.1.now < length text.now }
{
    match text.iter().position(|byte| *byte == b'\n') {
        Some(end) => (&text[..end], &text[end + 1..]),
        None => (text, &[]),
    }
}

// The record of a line.
fn line_pair(line: &[u8]) -> Result<(Key, Value), Status>
    ensures { result ≡ line_given line.now }
{
    match line.iter().position(|byte| *byte == b'\t') {
        Some(tab) => record_of(&line[..tab], &line[tab + 1..]),
        None => Err(Status::BadLine),
    }
}

fn record_of(key: &[u8], value: &[u8]) -> Result<(Key, Value), Status>
    ensures { result ≡ record_of key.now value.now }
{
    Ok((key_given(key)?, value_given(value)?))
}
