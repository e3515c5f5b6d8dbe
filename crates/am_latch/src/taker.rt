//! Who takes what a latch hands out.
ghost use Rattle.std.specs.Prelude.{◌≡◌, []};
ghost use Rattle.am_latch_ties.specs.declared.taker_tie.TakenView.TheVariants.{Taken};

use crate::latch_name::LatchName;
use am_latch_ties::TakenToken;
use std::marker::{Model, PhantomData};

/// Takes what a latch hands out: each latch has one. Contracts see it as the events that it took, the oldest of the
/// latch's trace, in their order. It takes no memory.
#[derive(Drop)]
pub struct Taker<L: LatchName> {
    pub(crate) token: TakenToken,
    pub(crate) of: PhantomData<L>,
}

impl<L: LatchName> Model for Taker<L> {
    ghost use Rattle.am_law_serial.specs.Trace.{Trace};
    ghost use Rattle.am_latch.specs.Fields.{IsTaker};
    ghost use Rattle.am_latch_ties.specs.CallLogs.{events_code};
    ghost use Rattle.am_latch_ties.specs.HandOutRule.{taken_in};

    ghost Value = { Trace };

    ghost coded = { events_code };

    ghost view = { λ t. taken_in t.token.me.0 };

    ghost invariant = { IsTaker L.table.handed };
}

impl<L: LatchName> Taker<L> {
    pub(crate) fn new(token: TakenToken) -> Taker<L>
        requires { (token.table_id ≡ L.table.handed) × (token.me ≡ (Taken [], [])) }
        ensures { result ≡ [] }
    {
        Taker {
            token,
            of: PhantomData,
        }
    }
}
