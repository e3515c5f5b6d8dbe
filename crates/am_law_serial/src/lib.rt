//! The locked machine, and what holds of each of its runs.
//!
//! The machine is the store without an index: a committed map, and for each active transaction its locks and what it
//! was answered. Its runs are serial in the order of commit. Everything that is promised of the store is said of the
//! traces of this machine.
#![tactic(auto)]

ghost use Rattle.am_record.specs.Limits.{max_runs};
ghost use Rattle.std.specs.Prelude.{◌↔◌, ℕ, []};
ghost use Rattle.am_law_serial.specs.Trace.{Trace, IsSerial, IsSteady, AtEachMoment};
ghost use Rattle.am_law_serial.specs.Machine.{State, Runs, start, after_run};
ghost use Rattle.am_law_serial.specs.Steps.{StepLaws};
ghost use Rattle.am_law_serial.specs.Laws.{IsMachineOf, OverlayLaws, ViewLaws};
ghost use Rattle.am_law_serial.specs.Sound.{IsSound};
ghost use Rattle.am_law_serial.specs.FormedTraces.{IsFormed, FormedLaws};
ghost use Rattle.am_law_serial.specs.Legal.{IsLegal};
ghost use Rattle.am_law_serial.specs.Rows.{nested_marks, back_keeps_locks, back_forgotten};

/// At each moment of every run of the machine the trace is serial in the order of commit, and what is
/// active has read only the committed map and its own writes.
pub fn runs_are_serial()
    ensures serial { (most_runs : ℕ) (trace : Trace) → Runs most_runs start trace → AtEachMoment IsSerial [] trace }
    ensures steady { (most_runs : ℕ) (trace : Trace) → Runs most_runs start trace → AtEachMoment IsSteady [] trace }
{}

/// The machine's runs are the traces that are serial, steady, right in their Busy answers and formed
/// at each moment.
pub fn sound_traces_are_runs()
    ensures { (most_runs : ℕ) (trace : Trace) → IsSound most_runs trace ↔ Runs most_runs start trace }
{}

/// Whoever judges a sound trace without the store finds nothing wrong in it.
pub fn sound_traces_are_legal()
    ensures { (most_runs : ℕ) (trace : Trace) → IsSound most_runs trace → IsLegal most_runs trace }
{}

/// What holds of every formed trace, also of one whose answers are wrong: the machine's state is what the
/// trace says, it names the least blocker, and only a commit says more of the order.
pub fn formed_traces_follow()
    ensures { (most_runs : ℕ) (trace : Trace) → IsFormed most_runs trace → FormedLaws most_runs trace }
{}

/// The machine's state is what its trace says, and its steps do to the overlay what they do to the
/// transactions' own views.
pub fn overlay_follows()
    ensures state { (most_runs : ℕ) (trace : Trace) → Runs most_runs start trace →
        IsMachineOf trace (after_run start trace) }
    ensures overlay { (most_runs : ℕ) (trace : Trace) → Runs most_runs start trace →
        OverlayLaws (after_run start trace) }
    ensures views { (most_runs : ℕ) (trace : Trace) → Runs most_runs start trace → ViewLaws (after_run start trace) }
{}

/// What one step does to what each transaction sees and holds.
pub fn steps_follow()
    ensures { (s : State) → StepLaws s }
{}

/// The machine makes the worked traces with savepoints, and not the one in which a Back is forgotten.
pub fn worked_savepoints()
    ensures nested { Runs max_runs start nested_marks }
    ensures locks_stay { Runs max_runs start back_keeps_locks }
    ensures forgotten { ¬ (Runs max_runs start back_forgotten) }
{}
