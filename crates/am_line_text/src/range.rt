//! Ranges in lines.

ghost use Rattle.std.specs.Prelude.{◌≡◌, ◌&&◌, if◌then◌else◌};
ghost use Rattle.am_line_text.specs.Keys.{is_key_text};
ghost use Rattle.am_line_text.specs.Locks.{range_for};

use crate::fault::LineFault;
use crate::key::parse_key;
use am_record::Range;

/// The range of its two ends; None where it is out of bounds, Syntax where an end is no key.
pub fn parse_range(lo: &[u8], hi: &[u8]) -> Result<Option<Range>, LineFault>
    ensures { result ≡ (if is_key_text lo.now && is_key_text hi.now
        then Ok (range_for lo.now hi.now) else Err LineFault.Syntax) }
{
    match (parse_key(lo)?, parse_key(hi)?) {
        (Some(lo), Some(hi)) => Ok(Range::new(lo, hi)),
        _ => Ok(None),
    }
}
