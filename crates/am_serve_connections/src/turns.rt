//! The turns of workers: when one may take its next, and what it does then.

use std::sync::Wait;

/// Says when a worker may take its next turn.
pub trait Pacer {
    /// Returns when the worker may take this turn, and answers whether it is to. At false the worker ends.
    /// Workers go by their place in the list of seats, and turns count from 0.
    fn await_turn<R: Wait>(&self, rt: &R, worker: u32, turn: u64) -> bool;

    /// How often more to do has come.
    fn work(&self) -> u64;

    /// In a turn before which more to do had come so often a worker saw what is left to do. Where nothing is, no turn
    /// is of use until more comes. Where more is that nobody need ask for, this returns once the worker may go on.
    fn note<R: Wait>(&self, rt: &R, work: u64, outlook: Outlook);
}

/// What a worker saw in a turn of what is left to do.
#[derive(Clone, Copy, PartialEq, Eq)]
pub enum Outlook {
    /// Nothing, before a run is loaded.
    Nothing,
    /// What may be asked for.
    Asked,
    /// More, whether it is asked for or not.
    More,
    /// The same, but nothing of it could be done just now.
    Held,
}

/// What a worker does in its turns.
#[derive(Clone, Copy, PartialEq, Eq)]
pub enum Upkeep {
    /// It merges.
    MergeOnly,
    /// It merges. Where nothing is left to merge it cleans, and where more runs than so many have entries it has some
    /// of these merged that nobody asked for; never, where that is 0.
    MergeAndClean(u64),
}
