//! What a replica needs of its store.

ghost use Rattle.std.specs.Prelude.{◌≡◌, [], ◌∷◌, ◌++◌, List, IfOk, OnOk};
ghost use Rattle.am_record.specs.Plain.{PlainMap};
ghost use Rattle.am_record.specs.declared.step.Op.{Op as TheOp};
ghost use Rattle.am_record.specs.declared.step.Reply.{Reply as TheReply};
ghost use Rattle.am_replica.specs.Bodies.{kept_ops, own_behind, replies, reply_behind, leaves, given};
ghost use Rattle.am_replica.specs.Ordered.{Sum};

use am_record::{NoMemory, Op, Reply};

/// A store with one transaction at a time.
pub trait Machine {
    /// The committed records, and those that a commit would leave.
    ghost map: { Self → PlainMap };

    ghost draft: { Self → PlainMap };

    /// No transaction is active.
    ghost idle: { Self → Type 0 };

    /// The active transaction was answered these operations, on this map.
    ghost inside: { Self → List TheOp → PlainMap → Type 0 };

    /// Begins a transaction, and gives the answers to its lines.
    ///
    /// # Errors
    /// NoMemory, where memory was refused, or the store took as many transactions or runs as it may. It is no use then.
    fn run(&mut self, ops: &[Op]) -> Result<Vec<Reply>, NoMemory>
        requires { idle self.old }
        ensures answers { IfOk result (λ told. told.items ≡ replies ops.now (map self.old)) }
        ensures draft { OnOk result (draft self.new ≡ leaves ops.now (map self.old)) }
        ensures inside { OnOk result (inside self.new (kept_ops ops.now) (map self.old)) }
        ensures same { OnOk result (map self.new ≡ map self.old) };

    /// The answer to one more operation of the transaction that is active.
    ///
    /// # Errors
    /// NoMemory, as `run`.
    fn go_on(&mut self, op: &Op) -> Result<Reply, NoMemory>
        ensures answer { (own : List TheOp) (m : PlainMap) → inside self.old own m →
            IfOk result (λ reply. reply ≡ reply_behind own m op.now) }
        ensures inside { (own : List TheOp) (m : PlainMap) → inside self.old own m →
            OnOk result (inside self.new (own_behind own op.now) m) }
        ensures same { (own : List TheOp) (m : PlainMap) → inside self.old own m →
            OnOk result (map self.new ≡ map self.old) };

    /// Commits the transaction that is active.
    ///
    /// # Errors
    /// NoMemory, where memory was refused. The store is no use then.
    fn commit(&mut self) -> Result<(), NoMemory>
        ensures idle { OnOk result (idle self.new) }
        ensures committed { OnOk result (map self.new ≡ draft self.old) };

    /// Takes back what the transaction did that is active.
    ///
    /// # Errors
    /// NoMemory, where memory was refused. The store is no use then.
    fn abort(&mut self) -> Result<(), NoMemory>
        ensures idle { OnOk result (idle self.new) }
        ensures same { OnOk result (map self.new ≡ map self.old) };
}

/// Digests of answers. One that refuses a line isn't among them.
pub trait Digest {
    /// A digest that goes on, as one answer comes after another.
    type Running: Drop;

    ghost digest_of: { List TheReply → Sum };

    /// It has taken these answers.
    ghost holds: { Self.Running → List TheReply → Type 0 };

    /// The digest.
    ///
    /// # Errors
    /// NoMemory, where memory was refused.
    fn digest(&self, replies: &[Reply]) -> Result<[u8; 32], NoMemory>
        ensures { IfOk result (λ sum. sum ≡ digest_of (given replies.now)) };

    /// One of no answers.
    fn begin(&self) -> Self::Running
        ensures { holds result [] };

    /// Takes one more answer.
    ///
    /// # Errors
    /// NoMemory, where memory was refused.
    fn add(&self, running: &mut Self::Running, reply: &Reply) -> Result<(), NoMemory>
        ensures { (told : List TheReply) → holds running.old told →
            OnOk result (holds running.new (told ++ given (reply.now ∷ []))) };

    /// The digest of the answers so far.
    fn sum(&self, running: &Self::Running) -> [u8; 32]
        ensures { (told : List TheReply) → holds running.now told → result ≡ digest_of told };
}
