//! What a session on a store of its own says.

ghost use Rattle.std.specs.Prelude.{◌≡◌, ℕ, ◌≤◌, length, List, [], All, Option, Some};
ghost use Rattle.am_law_serial.specs.Trace.{Trace};
ghost use Rattle.am_law_serial.specs.Sound.{IsSound};
ghost use Rattle.am_law_effect.specs.Store.{opened, IsRunOf};
ghost use Rattle.am_line_wire.specs.Replies.{IsOneLine};
ghost use Rattle.am_line_dialogue.specs.Responses.{response_text};
ghost use Rattle.am_line_dialogue.specs.Exchanges.{Exchange, with_torn};
ghost use Rattle.am_line_dialogue.specs.Alone.{AnswersAlone};
ghost use Rattle.am_line_dialogue.specs.Say.{DialogueState, Says, AreSay, StagesNothing, LosesNothing};
ghost use Rattle.am_line_dialogue.specs.StagedLoads.{all_of, load, put_line, IsAsOne};
ghost use Rattle.am_record.specs.Limits.{max_runs, max_run_records};
ghost use Rattle.am_record.specs.Records.{Records};
ghost use Rattle.am_record.specs.declared.step.Op.{Op};

use am_law_serial::sound_traces_are_runs;

/// Where one session alone had its steps answered by a sound trace, what it was answered is what is said to its lines.
/// The answer to a last line may have been torn.
pub fn sound_dialogues_say()
    ensures { (auto : ℕ) (exchanges : List Exchange) (torn : Option Exchange) (trace : Trace) →
        IsSound max_runs trace → AnswersAlone auto exchanges torn trace → Says (with_torn exchanges torn) }
{
    sound_traces_are_runs();
}

/// In one piece: where nothing is staged, or no load or put that the store was asked for was refused memory, the lines
/// that found memory are answered as those lines alone would be.
pub fn found_memory_is_said()
    ensures unstaged { (exchanges : List Exchange) → Says exchanges → All StagesNothing exchanges → AreSay exchanges }
    ensures found { (exchanges : List Exchange) → Says exchanges → All LosesNothing exchanges → AreSay exchanges }
{}

/// Lines that stage records and load or put them are answered as one LOAD or PUT of all of them would be.
pub fn staging_is_loading()
    ensures loads { (s : DialogueState) (ops : List Op) (staged : List Records) (last : Records) →
        s.own ≡ Some ops → s.staged ≡ [] → length (all_of staged) ≤ max_run_records → IsAsOne s staged load last }
    ensures puts { (s : DialogueState) (ops : List Op) (staged : List Records) (last : Records) →
        s.own ≡ Some ops → s.staged ≡ [] → length (all_of staged) ≤ max_run_records → IsAsOne s staged put_line last }
{}

/// Where one session alone had its steps answered by the store, each answer is one line: an LF ends it, and no other
/// stands in it. What the store holds came on lines, so no LF is among it. The answer to a last line may have been
/// torn.
pub fn answers_are_lines()
    ensures { (most_runs auto : ℕ) (exchanges : List Exchange) (torn : Option Exchange) (trace : Trace) →
        IsRunOf most_runs opened trace → AnswersAlone auto exchanges torn trace →
        All (λ (e : Exchange). IsOneLine (response_text e.1)) (with_torn exchanges torn) }
{}
