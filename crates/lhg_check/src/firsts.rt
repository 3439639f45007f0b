// The first piece of states that break a part of validity, and its sample.
ghost use Rattle.std.specs.Prelude.{◌≡◌, ℕ, IfOk, IfSome};
ghost use Rattle.lhg_num.specs.FracArithmetic.{frac_arithmetic};
ghost use Rattle.lhg_num.specs.Halting.{IsHaltedBy, IsHaltedByRows};
ghost use Rattle.lhg_num.specs.Marked.{valued};
ghost use Rattle.lhg_row.specs.Lists.{minus};
ghost use Rattle.lhg_plant.specs.Views.{plain_state};
ghost use Rattle.lhg_union.specs.PolyLists.{lines_of, AllVars, HaveVars};
ghost use Rattle.lhg_check.specs.Check as calculus;
ghost use Rattle.lhg_check.specs.Views.{plain_piece};

use lhg_num::{Frac, Halt};
use lhg_plant::State;
use lhg_poly::Poly;
use lhg_sample::sample;
use lhg_union::minus;
use std::alloc::Global;

/// The first piece of some lists, with the place of its list: that of a location or of a switch.
#[derive(Drop)]
pub(crate) struct First {
    pub(crate) place: u32,
    pub(crate) piece: Poly<Frac>,
}

/// The first piece of a list.
pub(crate) fn first_of(pieces: Vec<Poly<Frac>>) -> Option<Poly<Frac>>
    ensures piece { plain_piece result ≡ calculus.first_of (lines_of pieces.items) }
    ensures vars { (n : ℕ) → AllVars n pieces.items → IfSome result (λ p. p.width ≡ n) }
{
    pieces.into_iter().next()
}

/// The first piece of what is left of some pieces without others.
pub(crate) fn first_left(
    alloc: Global,
    ps: &[Poly<Frac>],
    qs: &[Poly<Frac>],
) -> Result<Option<Poly<Frac>>, Halt>
    requires { HaveVars ps.now qs.now }
    ensures calculus { (n : ℕ) → AllVars n ps.now → AllVars n qs.now → IsHaltedBy result (valued calculus.first_of (minus frac_arithmetic n (lines_of ps.now) (lines_of qs.now))) plain_piece }
    ensures vars { (n : ℕ) → AllVars n ps.now → AllVars n qs.now → IfOk result (λ o. IfSome o (λ p. p.width ≡ n)) }
{
    let left = minus(alloc, ps, qs)?;
    Ok(first_of(left))
}

/// The sample of a piece, as a state of a location.
pub(crate) fn sample_in(alloc: Global, loc: u32, piece: &Poly<Frac>) -> Result<State, Halt>
    ensures { IsHaltedByRows result (calculus.sample_at piece.now.width loc piece.now.lines) plain_state }
{
    let at = sample(alloc, piece)?;
    Ok(State { loc, at })
}
