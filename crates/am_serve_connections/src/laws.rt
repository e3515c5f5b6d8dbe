//! Who goes first, and what a request is.

ghost use Rattle.am_serve_connections.specs.Http.{RequestsAreSeen};
ghost use Rattle.am_serve_connections.specs.WaitingLaws.{LeaveInOrder, NobodyWaitsBesideASeat, GoOnInOrder};

/// Who has waited longest goes first, and nobody waits while a seat is free: of all that may happen at an acceptor.
pub fn oldest_connections_go_first()
    ensures order { LeaveInOrder }
    ensures seats { NobodyWaitsBesideASeat }
{}

/// Of all that may happen at a turnstile: who joined first goes on first.
pub fn oldest_sessions_go_on_first()
    ensures { GoOnInOrder }
{}

/// A request of HTTP is seen to be one, whatever its method and its target.
pub fn requests_are_seen()
    ensures { RequestsAreSeen }
{}
