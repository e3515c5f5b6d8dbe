//! What is handed out.
use std::marker::Brand;

/// What is handed out next.
pub trait Events {
    ghost use Rattle.std.specs.Prelude.{List};
    ghost use Rattle.am_latch_ties.specs.declared.call_id.CallId.{CallId};
    ghost use Rattle.am_record.specs.declared.step.Step.{Step};
    ghost use Rattle.am_record.specs.declared.step.Reply.{Reply};

    ghost trace: { List (Step × Reply) };

    ghost calls: { List CallId };
}

impl Events for Brand {
    ghost use Rattle.std.specs.Prelude.{[]};

    ghost trace = { [] };

    ghost calls = { [] };
}
