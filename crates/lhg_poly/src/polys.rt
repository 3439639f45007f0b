// Pieces with a point.
ghost use Rattle.std.specs.Prelude.{◌≡◌, length, IfOk};
ghost use Rattle.lhg_num.specs.Marked.{done};
ghost use Rattle.lhg_num.specs.Halting.{IsHaltedByMemory, IsWideBy};
ghost use Rattle.lhg_row.specs.Piece.{in_piece};
ghost use Rattle.lhg_row.specs.PieceFacts.{IsPoly};
ghost use Rattle.lhg_row.specs.Truths as calculus;

use lhg_num::{Halt, Scalar, Wide};
use lhg_row::{Point, Row, System, all_hold};
use std::alloc::Global;
use std::marker::Model;

/// A trimmed list of rows that have at least one point, each of which fails at some point of the others.
#[derive(Drop)]
pub struct Poly<N: Scalar> {
    system: System<N>,
}

impl<N: Scalar> Model for Poly<N> {
    ghost use Rattle.lhg_row.specs.System.{PlainSystem, system_code};
    ghost use Rattle.lhg_row.specs.PieceFacts.{IsPoly};

    ghost Value = { PlainSystem };

    ghost coded = { system_code };

    ghost view = { λ p. p.system };

    ghost invariant = { λ p. IsPoly N.arithmetic p.system.width p.system.lines };
}

impl<N: Scalar> Poly<N> {
    /// The number of variables.
    pub fn vars(&self) -> usize
        ensures { result ≡ self.now.width }
    {
        self.system.vars()
    }

    /// The rows, in order.
    pub fn rows(&self) -> &[Row<N>]
        ensures rows { result.now ≡ self.now.lines }
        ensures poly { IsPoly N.arithmetic self.now.width self.now.lines }
    {
        self.system.rows()
    }

    /// The rows as a system.
    pub fn system(&self) -> &System<N>
        ensures system { result.now ≡ self.now }
        ensures poly { IsPoly N.arithmetic self.now.width self.now.lines }
    {
        &self.system
    }

    /// A copy. It halts for `Memory` alone.
    pub fn copy(&self, alloc: Global) -> Result<Poly<N>, Halt>
        ensures copy { IsHaltedByMemory result (done self.now) (λ p. p) }
        ensures poly { IsPoly N.arithmetic self.now.width self.now.lines }
    {
        Ok(Poly {
            system: self.system.copy(alloc)?,
        })
    }

    /// Whether the point, with one coordinate per variable, is in the piece. It answers `Wide` only where whether one of its rows holds at the point is so answered.
    pub fn has(&self, point: &Point<N>) -> Result<bool, Wide>
        requires { length point.now ≡ self.now.width }
        ensures calculus { IsWideBy result (calculus.piece_truth N.arithmetic self.now.lines point.now) (λ b. b) }
        ensures exact { IfOk result (λ b. b ≡ in_piece self.now.lines point.now) }
    {
        all_hold(self.system.rows(), point)
    }

    // The piece of rows that are one.
    pub(crate) fn of(vars: usize, rows: Vec<Row<N>>) -> Poly<N>
        requires { IsPoly N.arithmetic vars rows.items }
        ensures { result ≡ record { width = vars; lines = rows.items } }
    {
        Poly {
            system: System::of(vars, rows),
        }
    }
}
