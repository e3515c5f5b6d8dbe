//! How large an empty store is.

ghost use Rattle.std.specs.Prelude.{[]};
ghost use Rattle.am_latch_engine.specs.Sizes.{AreFiguresAt};

use am_index::Figures;

/// The figures of an engine that took no step.
pub fn empty_figures() -> Figures
    ensures { AreFiguresAt [] result }
{
    am_law_sound::steps_lift();
    Figures {
        entries: 0,
        in_final: 0,
        in_runs: 0,
        runs: 0,
        ghosts: 0,
    }
}
