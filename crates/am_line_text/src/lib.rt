//! The texts of numbers, keys, values, records and locks in a session, the words of verbs and replies, and the fields
//! of a line that has them. A stored run has fields, numbers, modes and these words alike, and texts of its own for
//! keys and values.
#![tactic(auto)]

mod fault;
mod fields;
mod key;
mod mode;
mod number;
mod place;
mod range;
mod record;
mod reply_word;
mod text;
mod value;
mod verb;
mod words;

pub use fault::LineFault;
pub use fields::Fields;
pub use key::parse_key;
pub use mode::parse_mode;
pub use number::parse_number;
pub use place::position_of;
pub use range::parse_range;
pub use record::{parse_record, parse_record_field, split_record};
pub use reply_word::{ReplyWord, refusal_code};
pub use text::Text;
pub use verb::Verb;
pub use words::words_are_fields;
