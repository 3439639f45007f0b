// A log that is being read, line by line.
ghost use Rattle.std.specs.Prelude.{◌≡◌, Some};
ghost use Rattle.lhg_plant.specs.Views.{plain_state};
ghost use Rattle.lhg_read.specs.Refusals.{IsRead};
ghost use Rattle.lhg_ctl.specs.LogText.{begun_at, with_line, entry, end};
ghost use Rattle.lhg_ctl.specs.LogViews.{plain_entry, plain_open_log};

use crate::entries::Entry;
use lhg_plant::State;
use lhg_read::Refusal;
use std::alloc::Global;

/// What is read of a log, and whether it has ended.
#[derive(Drop)]
pub(crate) struct OpenLog {
    pub start: State,
    pub entries: Vec<Entry>,
    pub ended: bool,
}

impl OpenLog {
    /// A log that begins at a state.
    pub(crate) fn new(alloc: Global, start: State) -> OpenLog
        ensures { plain_open_log result ≡ begun_at (plain_state start) }
    {
        OpenLog {
            start,
            entries: Vec::new(alloc),
            ended: false,
        }
    }

    /// An entry more.
    pub(crate) fn take(&mut self, next: Entry) -> Result<(), Refusal>
        ensures { IsRead result (Some (with_line (plain_open_log self.old) (entry (plain_entry next)))) (λ _. plain_open_log self.new) }
    {
        self.entries.push(next)?;
        Ok(())
    }

    /// The end.
    pub(crate) fn end(&mut self)
        ensures { plain_open_log self.new ≡ with_line (plain_open_log self.old) end }
    {
        self.ended = true;
    }
}
