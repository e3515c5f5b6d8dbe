//! What a load of records in any order is answered: a reply, or why nothing is loaded.

ghost use Rattle.std.specs.Prelude.{◌≡◌};
ghost use Rattle.am_c_steps.specs.LoadAnswers.{failure_of, without_key, load_key_told};

use crate::status::Status;
use crate::text::KeyText;
use am_record::{Key, Reply};
use am_store_runs::LoadFault;

/// Why nothing is loaded.
#[derive(Clone, Copy)]
pub enum LoadFailure {
    /// The least of the keys that stand twice.
    Twice(Key),
    /// NoStore, NoMemory, or what is wrong with what was given.
    Other(Status),
}

/// Why records can't be cut into runs. The size is one that a run may have, so that memory was refused where no key
/// stands twice.
pub fn failure_of(why: LoadFault) -> LoadFailure
    ensures { result ≡ failure_of why }
{
    match why {
        LoadFault::Twice(key) => LoadFailure::Twice(key),
        _ => LoadFailure::Other(Status::NoMemory),
    }
}

/// The answer, without the key that stands twice.
pub fn without_key(answer: Result<Reply, LoadFailure>) -> Result<Reply, Status>
    ensures { result ≡ without_key answer }
{
    match answer {
        Ok(reply) => Ok(reply),
        Err(LoadFailure::Twice(_)) => Err(Status::Twice),
        Err(LoadFailure::Other(why)) => Err(why),
    }
}

/// Tells C the key that an answer is about, where it is about one.
pub fn tell_load_key(answer: &Result<Reply, LoadFailure>, key: &mut KeyText)
    ensures { key.new ≡ load_key_told answer.now key.old }
{
    match answer {
        Ok(Reply::Exists(found)) => *key = KeyText::of(found),
        Err(LoadFailure::Twice(found)) => *key = KeyText::of(found),
        _ => {}
    }
}
