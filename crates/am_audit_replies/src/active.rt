//! The active transactions of a trace.

ghost use Rattle.std.specs.Prelude.{◌≡◌, ◌==◌, ◌<◌, ℕ, not, map, filter, remove, length, true};
ghost use Rattle.std.specs.Prelude.{false, [], IfSome, IfNone, IfOk, OnOk, Some, is_some};
ghost use Rattle.am_record.specs.ByNumber.{RiseBy};
ghost use Rattle.am_audit_replies.specs.OwnAnswers.{listed, is_listed, place_in, own_in, placed_answer, with_own};

use am_record::{NoMemory, Op, Reply};
use std::alloc::Global;

/// So many operations of a transaction have their room from its begin.
const FIRST_OPERATIONS: usize = 16;

/// An answered operation with its reply, until its transaction ends.
#[derive(Drop)]
pub struct OwnAnswer {
    /// Where it stands in the trace.
    pub position: usize,
    /// What was asked.
    pub op: Op,
    /// What was answered.
    pub reply: Reply,
}

/// An active transaction.
pub struct Active {
    number: u64,
    /// Its answered operations.
    own: Vec<OwnAnswer>,
}

// By hand: a crate above then need not prove once more how a transaction is dropped.
impl Drop for Active {
    fn drop(self) {
        let Active { number: _, own } = self;
        drop(own);
    }
}

impl Active {
    /// A transaction without operations, with room for its first ones.
    pub fn new(alloc: Global, number: u64) -> Result<Active, NoMemory>
        ensures { IfOk result (λ active. listed active ≡ (number, [])) }
    {
        let own = Vec::with_capacity(alloc, FIRST_OPERATIONS)?;
        Ok(Active { number, own })
    }
}

/// Where the transaction stands among the active ones, where it is one.
pub fn place_of(all: &[Active], tx: u64) -> Option<usize>
    ensures place { result ≡ place_in all.now tx }
    ensures inside { IfSome result (λ p. p < length all.now) }
    ensures active { is_some result ≡ is_listed (map listed all.now) tx }
{
    all.iter().position(|active| active.number == tx)
}

/// How many operations were answered of a transaction that stands there.
pub fn operation_count(all: &[Active], place: Option<usize>) -> Option<usize>
    requires { IfSome place (λ p. p < length all.now) }
    ensures found { IfSome result (λ n. (tx : ℕ) → place ≡ place_in all.now tx →
        (is_listed (map listed all.now) tx ≡ true) × (n ≡ length (own_in (map listed all.now) tx))) }
    ensures none { IfNone result ((tx : ℕ) → place ≡ place_in all.now tx →
        is_listed (map listed all.now) tx ≡ false) }
{
    match place {
        Some(place) => Some(all[place].own.len()),
        None => None,
    }
}

/// The answered operations of the transaction that stands there.
pub fn own_answers(all: &[Active], place: usize) -> &[OwnAnswer]
    requires { place < length all.now }
    ensures { (tx : ℕ) → place_in all.now tx ≡ Some place →
        map placed_answer result.now ≡ own_in (map listed all.now) tx }
{
    &all[place].own
}

/// Keeps one more answered operation of the transaction that stands there.
pub fn keep_answer(all: &mut [Active], place: usize, kept: OwnAnswer) -> Result<(), NoMemory>
    requires { place < length all.old }
    ensures { OnOk result ((tx : ℕ) → place_in all.old tx ≡ Some place →
        map listed all.new ≡ with_own tx (placed_answer kept) (map listed all.old)) }
{
    let own = &mut all[place].own;
    own.reserve(1)?;
    own.push_reserved(kept);
    Ok(())
}

/// Forgets the transaction that stands there: it is not active any more.
pub fn forget(all: &mut Vec<Active>, place: usize)
    requires { place < length all.old.items }
    ensures removed { all.new.items ≡ remove all.old.items place }
    ensures others { (tx : ℕ) → place_in all.old.items tx ≡ Some place →
        RiseBy (λ x. x.0) (map listed all.old.items) →
        map listed all.new.items ≡ filter (λ x. not (x.0 == tx)) (map listed all.old.items) }
{
    let _ended = all.remove(place);
}
