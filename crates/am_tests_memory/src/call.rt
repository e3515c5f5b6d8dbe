//! The calls, in their order.

use crate::entries::entry_of_two;
use crate::fault::Fault;
use crate::indexes::list_of_five;
use crate::loads::loads_of_a_list;
use crate::outcomes::outcomes_of_a_block;
use crate::plain_map::{plain_alone, plain_answers};
use crate::rows_back::{rows_back_of_a_list, scans_back};
use crate::texts::replies;
use std::alloc::Global;

/// A worked call, or several that belong together.
#[derive(Clone, Copy, Debug, PartialEq, Eq)]
pub(crate) enum Call {
    ListOfFive,
    RowsBackOfAList,
    ScansBack,
    LoadsOfAList,
    PlainAnswers,
    PlainAlone,
    Replies,
    EntryOfTwo,
    OutcomesOfABlock,
}

/// All calls.
pub(crate) const CALLS: [Call; 9] = [
    Call::ListOfFive,
    Call::RowsBackOfAList,
    Call::ScansBack,
    Call::LoadsOfAList,
    Call::PlainAnswers,
    Call::PlainAlone,
    Call::Replies,
    Call::EntryOfTwo,
    Call::OutcomesOfABlock,
];

impl Call {
    pub(crate) fn name(self) -> &'static str {
        match self {
            Call::ListOfFive => "list_of_five",
            Call::RowsBackOfAList => "rows_back_of_a_list",
            Call::ScansBack => "scans_back",
            Call::LoadsOfAList => "loads_of_a_list",
            Call::PlainAnswers => "plain_answers",
            Call::PlainAlone => "plain_alone",
            Call::Replies => "replies",
            Call::EntryOfTwo => "entry_of_two",
            Call::OutcomesOfABlock => "outcomes_of_a_block",
        }
    }

    /// Makes the call, and looks at what it did.
    pub(crate) fn make(self, alloc: Global) -> Result<(), Fault> {
        match self {
            Call::ListOfFive => list_of_five(alloc),
            Call::RowsBackOfAList => rows_back_of_a_list(alloc),
            Call::ScansBack => scans_back(alloc),
            Call::LoadsOfAList => loads_of_a_list(alloc),
            Call::PlainAnswers => plain_answers(alloc),
            Call::PlainAlone => plain_alone(alloc),
            Call::Replies => replies(alloc),
            Call::EntryOfTwo => entry_of_two(alloc),
            Call::OutcomesOfABlock => outcomes_of_a_block(alloc),
        }
    }
}
