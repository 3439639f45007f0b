// Moves that are being read, line by line.
ghost use Rattle.std.specs.Prelude.{◌≡◌, Some};
ghost use Rattle.lhg_read.specs.Listed.{nothing_yet, with_line, item, end};
ghost use Rattle.lhg_read.specs.Refusals.{IsRead};
ghost use Rattle.lhg_spoil.specs.OpenViews.{plain_open_moves};
ghost use Rattle.lhg_spoil.specs.Views.{plain_ctl_move};

use crate::ctl_moves::CtlMove;
use lhg_read::Refusal;
use std::alloc::Global;

/// The moves that are read so far, and whether they have ended.
#[derive(Drop)]
pub(crate) struct OpenMoves {
    pub moves: Vec<CtlMove>,
    pub ended: bool,
}

impl OpenMoves {
    /// No move yet.
    pub(crate) fn new(alloc: Global) -> OpenMoves
        ensures { plain_open_moves result ≡ nothing_yet }
    {
        OpenMoves {
            moves: Vec::new(alloc),
            ended: false,
        }
    }

    /// A move more.
    pub(crate) fn take(&mut self, next: CtlMove) -> Result<(), Refusal>
        ensures { IsRead result (Some (with_line (plain_open_moves self.old) (item (plain_ctl_move next)))) (λ _. plain_open_moves self.new) }
    {
        self.moves.push(next)?;
        Ok(())
    }

    /// The end.
    pub(crate) fn end(&mut self)
        ensures { plain_open_moves self.new ≡ with_line (plain_open_moves self.old) end }
    {
        self.ended = true;
    }
}
