//! What of an answer C is given beside its status and its number.

ghost use Rattle.std.specs.Prelude.{◌≡◌, ◌≤◌, length};
ghost use Rattle.am_c_steps.specs.AnswerParts.{all, without_first, rows_behind, answer_rows, rows_over};
ghost use Rattle.am_c_steps.specs.AnswerParts.{rows_told, count_told, key_told, value_told};

use crate::status::{Status, number_told};
use crate::text::{KeyText, Record, ValueText};
use am_record::{Key, Reply, Value};

/// Writes the value that was found, if one was.
pub fn tell_value(answer: &Result<Reply, Status>, value: &mut ValueText)
    ensures { value.new ≡ value_told answer.now value.old }
{
    if let Ok(Reply::Found(found)) = answer {
        *value = ValueText::of(found);
    }
}

/// Writes the key that has a record already, if one has.
pub fn tell_key(answer: &Result<Reply, Status>, key: &mut KeyText)
    ensures { key.new ≡ key_told answer.now key.old }
{
    if let Ok(Reply::Exists(found)) = answer {
        *key = KeyText::of(found);
    }
}

/// Writes the rows of an answer, if it has any, over the first ones. The number that is told.
pub fn tell_rows(answer: &Result<Reply, Status>, rows: &mut [Record]) -> u64
    requires { length (answer_rows answer.now) ≤ length rows.old }
    ensures told { result ≡ count_told all answer.now }
    ensures rows { rows.new ≡ rows_told all answer.now rows.old }
{
    if let Ok(Reply::Rows(pairs)) = answer {
        let pairs = pairs.as_slice();
        write_rows(pairs, rows);
        pairs.len() as u64
    } else {
        number_told(answer)
    }
}

/// The same of the rows after a key, as many as there is room for.
pub fn tell_rows_behind(key: &[u8], answer: &Result<Reply, Status>, rows: &mut [Record]) -> u64
    ensures told { result ≡ count_told (rows_behind key.now (length rows.old)) answer.now }
    ensures rows { rows.new ≡ rows_told (rows_behind key.now (length rows.old)) answer.now rows.old }
{
    if let Ok(Reply::Rows(pairs)) = answer {
        let pairs = behind(key, rows.len(), pairs.as_slice());
        write_rows(pairs, rows);
        pairs.len() as u64
    } else {
        number_told(answer)
    }
}

// Writes the pairs over the first rows.
fn write_rows(pairs: &[(Key, Value)], rows: &mut [Record])
    requires { length pairs.now ≤ length rows.old }
    ensures { rows.new ≡ rows_over pairs.now rows.old }
{
    for (at, pair) in pairs.iter().enumerate() {
        rows[at] = Record::of(pair);
    }
}

// The first of the pairs, without a record of that key at their head.
fn behind<'a>(key: &[u8], max: usize, pairs: &'a [(Key, Value)]) -> &'a [(Key, Value)]
    ensures chosen { result.now ≡ rows_behind key.now max pairs.now }
    ensures few { length result.now ≤ max }
{
    let pairs = without(key, pairs);
    if pairs.len() > max {
        &pairs[..max]
    } else {
        pairs
    }
}

fn without<'a>(key: &[u8], pairs: &'a [(Key, Value)]) -> &'a [(Key, Value)]
    ensures { result.now ≡ without_first key.now pairs.now }
{
    match pairs.split_first() {
        Some((first, rest)) if first.0.bytes() == key => rest,
        _ => pairs,
    }
}
