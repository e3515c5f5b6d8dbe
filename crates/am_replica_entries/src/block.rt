//! Transactions as an entry has them.

/// What a transaction was told before it was put: how many of its lines were answered, and the digest of those answers.
#[derive(Clone, Copy, Debug)]
pub struct Told {
    pub lines: u32,
    pub digest: [u8; 32],
}

/// A transaction's lines, each with its LF, and what it was told of the first of them.
#[derive(Debug, Drop)]
pub struct Block {
    pub lines: Vec<u8>,
    pub told: Option<Told>,
}
