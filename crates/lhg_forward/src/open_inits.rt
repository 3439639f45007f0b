// First states that are being read, line by line.
ghost use Rattle.std.specs.Prelude.{◌≡◌, Some};
ghost use Rattle.lhg_read.specs.Listed.{nothing_yet, with_line, item, end};
ghost use Rattle.lhg_read.specs.Refusals.{IsRead};
ghost use Rattle.lhg_ctl.specs.Views.{plain_placed};
ghost use Rattle.lhg_forward.specs.InitViews.{plain_open};

use lhg_num::Frac;
use lhg_read::Refusal;
use lhg_row::Row;
use std::alloc::Global;

/// The rows that are read, each with the place of its location, and whether the text has ended.
#[derive(Drop)]
pub(crate) struct OpenInit {
    pub(crate) states: Vec<(u32, Vec<Row<Frac>>)>,
    pub(crate) ended: bool,
}

impl OpenInit {
    /// Nothing is read.
    pub(crate) fn new(alloc: Global) -> OpenInit
        ensures { plain_open result ≡ nothing_yet }
    {
        OpenInit {
            states: Vec::new(alloc),
            ended: false,
        }
    }

    /// Rows more.
    pub(crate) fn take(&mut self, next: (u32, Vec<Row<Frac>>)) -> Result<(), Refusal>
        ensures { IsRead result (Some (with_line (plain_open self.old) (item (plain_placed next)))) (λ _. plain_open self.new) }
    {
        self.states.push(next)?;
        Ok(())
    }

    /// The end.
    pub(crate) fn end(&mut self)
        ensures { plain_open self.new ≡ with_line (plain_open self.old) end }
    {
        self.ended = true;
    }
}
