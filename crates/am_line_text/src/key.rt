//! Keys in lines.

ghost use Rattle.std.specs.Prelude.{◌≡◌, if◌then◌else◌};
ghost use Rattle.am_line_text.specs.Keys.{is_key_text, key_for};

use crate::fault::LineFault;
use am_record::Key;

/// The key of a field; None where it is out of range, Syntax where the field is no key.
pub fn parse_key(field: &[u8]) -> Result<Option<Key>, LineFault>
    ensures { result ≡ (if is_key_text field.now
        then Ok (key_for field.now) else Err LineFault.Syntax) }
{
    if !is_key_text(field) {
        return Err(LineFault::Syntax);
    }
    Ok(Key::new(field))
}

// Whether the text has a byte, and all its bytes are visible and none is an =.
fn is_key_text(text: &[u8]) -> bool
    ensures { result ≡ is_key_text text.now }
{
    !text.is_empty()
        && text
            .iter()
            .all(|byte| byte.is_ascii_graphic() && *byte != b'=')
}
