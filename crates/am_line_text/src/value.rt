//! Values in lines.

ghost use Rattle.std.specs.Prelude.{◌≡◌, if◌then◌else◌};
ghost use Rattle.am_line_text.specs.Values.{is_value_text, value_for};

use crate::fault::LineFault;
use am_record::Value;

/// The value of a field; None where it is out of range, Syntax where the field is no value.
pub fn parse_value(field: &[u8]) -> Result<Option<Value>, LineFault>
    ensures { result ≡ (if is_value_text field.now
        then Ok (value_for field.now) else Err LineFault.Syntax) }
{
    if !is_value_text(field) {
        return Err(LineFault::Syntax);
    }
    Ok(Value::new(field))
}

// Whether the text has a byte, and all its bytes are visible.
fn is_value_text(text: &[u8]) -> bool
    ensures { result ≡ is_value_text text.now }
{
    !text.is_empty() && text.iter().all(u8::is_ascii_graphic)
}
