//! The texts of redis's protocol (RESP2): answers as bytes, and requests from bytes.
#![tactic(auto)]

mod bytes;
mod fault;
mod laws;
mod part;
mod put;
mod read;
mod words;

pub use bytes::Bytes;
pub use fault::{Gap, RequestFault};
pub use laws::{
    answers_are_cut_in_one_way, arrays_are_answers, bytes_are_read_in_one_way, limits,
    requests_are_cut_in_one_way,
};
pub use part::Part;
pub use put::{put_answer, put_part};
pub use read::{MAX_WORD_BYTES, MAX_WORDS, read_byte, read_count, read_request};
pub use words::Words;
