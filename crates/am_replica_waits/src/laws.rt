//! What holds of all that was done to a queue, and of all that a replica learnt of the log's end.

ghost use Rattle.std.specs.Prelude.{◌≡◌, ℕ, ◌<◌, ◌≤◌, List, true, false};
ghost use Rattle.std.specs.List.{AllByRecursion, IsDistinct};
ghost use Rattle.am_replica_waits.specs.declared.ends.Question.{Question as TheQuestion};
ghost use Rattle.am_replica_waits.specs.Queues.{is_of};
ghost use Rattle.am_replica_waits.specs.QueueHistory.{QueueStep, all_handed, NumbersRise, all_told};
ghost use Rattle.am_replica_waits.specs.QueueHistory.{is_unreachable, same_teller};
ghost use Rattle.am_replica_waits.specs.Ends.{has_reached};
ghost use Rattle.am_replica_waits.specs.EndsHistory.{EndsStep, ends_known, WasAnswered, AnswersAreTrue, NeverFalls};

/// Whose client is told Unreachable at some step is handed over by no step, before it or after it.
pub fn unreachable_was_never_handed_over()
    ensures { (steps : List QueueStep) → AllByRecursion
        (λ t. is_unreachable t.expired ≡ true → is_of t.number (all_handed steps) ≡ false) (all_told steps) }
{}

/// Whoever is told what its blocks came to, or Unknown, was handed over before.
pub fn others_were_handed_over()
    ensures { (steps : List QueueStep) → AllByRecursion
        (λ t. is_unreachable t.expired ≡ false → is_of t.number (all_handed steps) ≡ true) (all_told steps) }
{}

/// No client is told twice.
pub fn each_is_told_once()
    ensures { (steps : List QueueStep) → IsDistinct same_teller (all_told steps) }
{}

/// Numbers, which are given in the order in which blocks come, are handed over in that order, each once at most.
pub fn handed_over_in_order()
    ensures { (steps : List QueueStep) → NumbersRise 0 (all_handed steps) }
{}

/// The moment that is known is one at which a question was asked, and the end that it was answered is applied.
pub fn what_is_known_was_asked()
    ensures { (steps : List EndsStep) → 0 < (ends_known steps).known → (q : TheQuestion) ×
        ((q.asked ≡ (ends_known steps).known) × WasAnswered q steps × (q.end ≤ (ends_known steps).applied)) }
{}

/// A read by the log is answered only where all is applied that the log had when the read began.
pub fn reads_by_the_log_see_all_before()
    ensures { (steps : List EndsStep) (stood : ℕ → ℕ) (begun : ℕ) → NeverFalls stood → AnswersAreTrue stood steps →
        has_reached begun (ends_known steps) ≡ true → stood begun ≤ (ends_known steps).applied }
{}
