//! What a verdict excludes.

ghost use Rattle.std.specs.Prelude.{◌≡◌, ℕ};
ghost use Rattle.am_law_serial.specs.Trace.{Trace};
ghost use Rattle.am_law_serial.specs.Legal.{IsLegal};
ghost use Rattle.am_audit.specs.Faults.{IsFirstFault};
ghost use Rattle.am_audit.specs.declared.fault.FaultKind.{FaultKind};

/// A trace has one first fault at most, and one that has it isn't legal.
pub fn first_faults_exclude()
    ensures legal { (most_runs : ℕ) (trace : Trace) (line : ℕ) (kind : FaultKind) →
        IsFirstFault most_runs trace line kind → ¬ (IsLegal most_runs trace) }
    ensures one { (most_runs : ℕ) (trace : Trace) (l m : ℕ) (j k : FaultKind) → IsFirstFault most_runs trace l j →
        IsFirstFault most_runs trace m k → (l ≡ m) × (j ≡ k) }
{
    am_law_serial::formed_traces_follow();
}
