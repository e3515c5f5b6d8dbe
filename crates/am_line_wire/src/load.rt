//! The records of a load, and of those that wait for one.

ghost use Rattle.std.specs.Prelude.{◌≡◌};
ghost use Rattle.am_line_wire.specs.Shapes.{some_records};
ghost use Rattle.am_line_wire.specs.LineReadings.{values_in, MayBeRefused, fault_behind};

use am_line_text::{Fields, LineFault, parse_record_field};
use am_record::Records;
use std::alloc::Global;

/// Records, one at least, in the fields after the verb. Where memory is refused for them, the further fields are judged
/// all the same.
pub fn parse_records(alloc: Global, mut fields: Fields<'_>) -> Result<Records, LineFault>
    ensures { MayBeRefused (values_in some_records fields.entry) result }
{
    if fields.end().is_ok() {
        return Err(LineFault::Syntax);
    }
    let mut items = Vec::new(alloc);
    'fields: while let Ok(field) = fields.next() {
        let Some(record) = parse_record_field(field)? else {
            return Err(judge_behind(LineFault::Range, fields));
        };
        if items.push(record).is_err() {
            return Err(judge_behind(LineFault::NoMemory, fields));
        }
    }
    Ok(Records::new(items))
}

// The fault of a line that has one before these fields.
fn judge_behind(mut fault: LineFault, mut fields: Fields<'_>) -> LineFault
    ensures { result ≡ fault_behind fault fields.entry }
{
    'fields: while let Ok(field) = fields.next() {
        match parse_record_field(field) {
            Ok(Some(_)) => {}
            Ok(None) => fault = LineFault::Range,
            Err(_) => return LineFault::Syntax,
        }
    }
    fault
}
