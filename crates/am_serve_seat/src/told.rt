//! What WHO tells of the sessions that are served.

ghost use Rattle.std.specs.Prelude.{◌≡◌, IfOk};
ghost use Rattle.std.specs.List.{filter_map};
ghost use Rattle.am_serve_seat.specs.ToldSessions.{told_standing, told_of, AreSeen, TellsServed};

use am_line_dialogue::{Standing, ToldSession, ToldSessions};
use am_line_wire::WhichSessions;
use am_record::NoMemory;
use am_serve_connections::{Connections, ServedSession, Turnstile};
use std::alloc::Global;
use std::rt::Clock;
use std::sync::Wait;

fn told_standing(standing: am_serve_connections::Standing) -> Standing
    ensures { result ≡ told_standing standing }
{
    match standing {
        am_serve_connections::Standing::Free => Standing::Free,
        am_serve_connections::Standing::Holds => Standing::Holds,
        am_serve_connections::Standing::Waits => Standing::Waits,
    }
}

// What is told of a session, where anything is.
fn told_of(which: WhichSessions, served: &ServedSession) -> Option<ToldSession>
    ensures { result ≡ told_of which served.now }
{
    match which {
        WhichSessions::All => Some(ToldSession {
            session: served.session,
            tx: served.tx,
            seconds: served.seconds,
            standing: told_standing(served.standing),
        }),
        WhichSessions::Active => {
            let tx = served.tx?;
            Some(ToldSession {
                session: served.session,
                tx: Some(tx),
                seconds: served.seconds,
                standing: Standing::Free,
            })
        }
    }
}

// The sessions that are served, with how they stand where all are to be told.
fn seen<W: Wait + Clock>(
    rt: &W,
    alloc: Global,
    which: WhichSessions,
    connections: &Connections,
    turnstile: &Turnstile,
) -> Result<Vec<ServedSession>, NoMemory>
    ensures { IfOk result (λ served. AreSeen which served.items) }
{
    let mut served = connections.served(rt, alloc)?;
    match which {
        WhichSessions::All => turnstile.tell(rt, &mut served),
        WhichSessions::Active => {}
    }
    Ok(served)
}

// What is told of them.
fn tell(
    alloc: Global,
    which: WhichSessions,
    served: &[ServedSession],
) -> Result<ToldSessions, NoMemory>
    ensures { IfOk result (λ told. told ≡ filter_map (told_of which) served.now) }
{
    let mut told = Vec::new(alloc);
    for session in served {
        if let Some(one) = told_of(which, session) {
            told.push(one)?;
        }
    }
    Ok(ToldSessions::new(told))
}

/// What WHO tells.
pub(crate) fn who<W: Wait + Clock>(
    rt: &W,
    alloc: Global,
    which: WhichSessions,
    connections: &Connections,
    turnstile: &Turnstile,
) -> Result<ToldSessions, NoMemory>
    ensures { TellsServed which result }
{
    let served = seen(rt, alloc, which, connections, turnstile)?;
    tell(alloc, which, &served)
}
