//! What a program begins with.
//!
//! - [`hold_stack`]: the stack that it needs.
//! - [`words`]: the words of its command line, and [`OptionsFault`], why they ask for nothing; [`audited`], the command
//!   line of `amaudit`, and what that of `amserve` has in common with it.
//! - [`draw_hash_key`]: a hash key that no stranger knows.
#![tactic(auto)]

mod amaudit;
mod arguments;
mod choice;
mod fault;
mod hash_key_draw;
mod program_words;
mod stack;

pub use amaudit::audited;
pub use arguments::flag;
pub use choice::Audited;
pub use fault::{OptionsFault, fault_of};
pub use hash_key_draw::draw_hash_key;
pub use program_words::{VERSION, text_in, words};
pub use stack::hold_stack;
