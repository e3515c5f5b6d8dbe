//! What ties a taker to what was handed out: a table of one word, which never changes, under a rule over the views of
//! tokens.
ghost use Rattle.std.specs.Prelude.{◌≡◌, ◌<◌, [], ◌++◌};
ghost use Rattle.am_latch_ties.specs.HandOutRule.{handed_in, taken_in, IsHandedView, IsTakerView, IsWholeView};
ghost use Rattle.am_latch_ties.specs.HandOutRule.{taken_with};
ghost use Rattle.am_latch_ties.specs.declared.taker_tie.TakenView.TheVariants.{Handed, Taken, Whole};

use crate::events::Events;
use am_record::{Reply, Step};
use atomic_table::{Join, Play, Seat, Split, Table, TableRule};
use std::alloc::Global;
use std::collections::LinkedList;
use std::marker::{Brand, PhantomData};

/// What a token knows. No value of it is made.
pub enum TakenView {
    /// Nothing: what it knew went to another's.
    Nothing,
    /// What was handed out.
    Handed(LinkedList<(Step, Reply)>),
    /// What the taker took.
    Taken(LinkedList<(Step, Reply)>),
    /// Both, while more is handed over.
    Whole {
        handed: LinkedList<(Step, Reply)>,
        taken: LinkedList<(Step, Reply)>,
    },
}

pub struct AgreeingTakers;

impl TableRule<u8, TakenView, ()> for AgreeingTakers {
    ghost use Rattle.std.specs.Prelude.{[]};
    ghost use Rattle.am_latch_ties.specs.HandOutRule.{TakersAgree};
    ghost use Rattle.am_latch_ties.specs.declared.taker_tie.TakenView.TheVariants.{Whole};

    ghost holds = { λ _. TakersAgree };

    ghost first = { λ _. Whole [] [] };
}

pub type TakenTable = Table<u8, TakenView, (), AgreeingTakers, Global>;

pub type TakenToken = Seat<u8, TakenView>;

pub struct HandOver<E> {
    of: PhantomData<E>,
}

impl<E: Events> Play<u8, TakenView> for HandOver<E> {
    ghost use Rattle.am_latch_ties.specs.HandOutRule.{HandsOver};

    ghost then = { HandsOver E.trace };
}

/// The view of what was handed out is taken into the taker's.
pub struct JoinTaker;

impl Join<TakenView> for JoinTaker {
    ghost use Rattle.am_latch_ties.specs.HandOutRule.{both_views};
    ghost use Rattle.am_latch_ties.specs.declared.taker_tie.TakenView.TheVariants.{Nothing};

    ghost both = { both_views };

    ghost spent = { Nothing };
}

/// And cut off again.
pub struct SplitTaker;

impl Split<TakenView> for SplitTaker {
    ghost use Rattle.am_latch_ties.specs.HandOutRule.{taker_part, handed_part};

    ghost left = { taker_part };

    ghost right = { handed_part };
}

// Both parts of the joined view know of these, too.
fn add_taken<E: Events>(table: &TakenTable, token: &mut TakenToken, trace: &[(Step, Reply)])
    requires table { (token.old.table_id ≡ table.now.shared.table_id) × (0 < table.now.shared.table_id.words) }
    requires events { trace.now ≡ E.trace }
    requires token { IsWholeView token.old.me.0 }
    ensures same { token.new.table_id ≡ token.old.table_id }
    ensures token { token.new.me ≡ (taken_with trace.now token.old.me.0, token.old.me.1) }
    ensures agree { taken_in token.old.me.0 ≡ handed_in token.old.me.0 }
{
    table.shared.load::<HandOver<E>>(token, 0);
}

/// Both tokens, that of the taker and that under the latch, know that these were handed out.
pub fn hand_over(
    table: &TakenTable,
    token: &mut TakenToken,
    handed_token: TakenToken,
    trace: &[(Step, Reply)],
) -> TakenToken
    requires table { (token.old.table_id ≡ table.now.shared.table_id) ×
        (handed_token.table_id ≡ table.now.shared.table_id) × (0 < table.now.shared.table_id.words) }
    requires token { IsTakerView token.old.me.0 }
    requires handed_token { IsHandedView handed_token.me.0 × (handed_token.me.1 ≡ []) }
    ensures same { (token.new.table_id ≡ token.old.table_id) × (result.table_id ≡ token.old.table_id) }
    ensures agree { taken_in token.old.me.0 ≡ handed_in handed_token.me.0 }
    ensures token { token.new.me ≡ (Taken (taken_in token.old.me.0 ++ trace.now), token.old.me.1) }
    ensures handed_token { result.me ≡ (Handed (handed_in handed_token.me.0 ++ trace.now), []) }
{
    table.shared.join_seat::<JoinTaker>(token, handed_token);
    add_taken::<Brand>(table, token, trace);
    table.shared.split_seat::<SplitTaker>(token)
}

/// The token of the taker, from which that under the latch is cut off.
pub fn split_taker(table: &TakenTable, token: &mut TakenToken) -> TakenToken
    requires table { (token.old.table_id ≡ table.now.shared.table_id) × (0 < table.now.shared.table_id.words) }
    requires token { token.old.me ≡ (Whole [] [], []) }
    ensures same { (token.new.table_id ≡ token.old.table_id) × (result.table_id ≡ token.old.table_id) }
    ensures token { token.new.me ≡ (Taken [], []) }
    ensures handed_token { result.me ≡ (Handed [], []) }
{
    table.shared.split_seat::<SplitTaker>(token)
}
