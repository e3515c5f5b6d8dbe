//! The digest of a transaction's answers: the SHA-256 of their texts, one line after another.
#![tactic(auto)]

ghost use Rattle.sha2.specs.Hashers.{Holds256};
ghost use Rattle.sha2.specs.Sha256.{sha256};
ghost use Rattle.am_replica_digest.specs.Texts.{texts_of};

use am_line_wire::reply_text;
use am_record::{NoMemory, Reply};
use am_replica::Digest;
use sha2::{Digest as _, Sha256};
use std::alloc::Global;
use std::marker::Model;

/// The digest of answers, as replicas tell it in their entries. It takes the room of one answer's text at a time.
#[derive(Drop)]
pub struct AnswerDigest {
    alloc: Global,
    // That of no answers: most blocks were told none.
    none: [u8; 32],
}

impl Model for AnswerDigest {
    ghost use Rattle.std.specs.Prelude.{◌≡◌, []};
    ghost use Rattle.sha2.specs.Sha256.{sha256};

    ghost Value = { Unit {0} };

    ghost view = { λ _. tt };

    ghost invariant = { λ d. d.none ≡ sha256 [] };
}

impl AnswerDigest {
    /// Takes no memory.
    pub fn new(alloc: Global) -> AnswerDigest {
        AnswerDigest {
            alloc,
            none: Sha256::new().finalize(),
        }
    }
}

impl Digest for AnswerDigest {
    type Running = Sha256;

    ghost digest_of = { λ replies. sha256 (texts_of replies) };

    ghost holds = { λ hasher told. Holds256 hasher (texts_of told) };

    fn digest(&self, replies: &[Reply]) -> Result<[u8; 32], NoMemory> {
        if replies.is_empty() {
            return Ok(self.none);
        }
        let mut hasher = Sha256::new();
        for reply in replies {
            self.add(&mut hasher, reply)?;
        }
        Ok(hasher.finalize())
    }

    fn begin(&self) -> Sha256 {
        Sha256::new()
    }

    fn add(&self, hasher: &mut Sha256, reply: &Reply) -> Result<(), NoMemory> {
        if matches!(reply, Reply::Refused(_)) {
            return Ok(());
        }
        let text = reply_text(self.alloc, reply)?;
        hasher.update(text.as_slice());
        Ok(())
    }

    fn sum(&self, hasher: &Sha256) -> [u8; 32] {
        hasher.clone().unwrap().finalize()
    }
}
