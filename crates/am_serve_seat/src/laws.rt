//! What a session's receipts say of it.

ghost use Rattle.std.specs.Prelude.{ℕ, List, Option};
ghost use Rattle.am_law_serial.specs.Trace.{Trace};
ghost use Rattle.am_line_dialogue.specs.Exchanges.{Exchange};
ghost use Rattle.am_line_dialogue.specs.Conversation.{AnswersAll};
ghost use Rattle.am_serve_seat.specs.SessionSeats.{SessionSeatState, seat_meaning, HasReceipts};

/// Whatever a session was answered, also where the last answer was torn, its seat has the receipts, and is the same
/// seat; and what was published there is the commit of one of them.
pub fn sessions_have_receipts()
    ensures { (most_runs auto : ℕ) (old new : SessionSeatState) (exchanges : List Exchange) (torn : Option Exchange)
        (events : Trace) →
        AnswersAll (seat_meaning most_runs) auto old exchanges torn events new → HasReceipts old events new }
{}
