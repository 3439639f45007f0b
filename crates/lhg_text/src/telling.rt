// Which records can be printed?
ghost use Rattle.std.specs.Prelude.{Contains, length};
ghost use Rattle.lhg_math.specs.Tests.{AllOf};
ghost use Rattle.lhg_num.specs.FracArithmetic.{frac_arithmetic};
ghost use Rattle.lhg_row.specs.PieceFacts.{IsPoly};
ghost use Rattle.lhg_plant.specs.Loss.{PlainLoss};
ghost use Rattle.lhg_plant.specs.Sound.{IsSoundLoss};
ghost use Rattle.lhg_plant.specs.Views.{plain_plant};
ghost use Rattle.lhg_loss.specs.Views.{plain_losses, AreOver, AllHaveVars};
ghost use Rattle.lhg_text.specs.ReportConditions.{IsPlacedLoss};

use lhg_loss::Loss;
use lhg_plant::Plant;

/// Sound records can be printed: their locations and switches are there, since each of their pieces has a point. This call does nothing;
/// before `print_report`, it tells what that asks of the records of a solution.
pub fn tell_places(plant: &Plant, losses: &[Loss])
    requires vars { AllHaveVars (length plant.now.vars.items) losses.now }
    requires sound { (loss : PlainLoss) → Contains (plain_losses losses.now) loss → IsSoundLoss (plain_plant plant.now) (plain_losses losses.now) loss }
    ensures places { AllOf (IsPlacedLoss (plain_plant plant.now)) (plain_losses losses.now) }
    ensures vars { AreOver (length plant.now.vars.items) losses.now }
{
    let _ = plant;
    tell_pieces(losses);
}

/// A call on a piece tells its invariant. This one does nothing, and tells those of all records: each of their pieces has a point.
pub fn tell_pieces(losses: &[Loss])
    ensures { AllOf (λ r. IsPoly frac_arithmetic r.piece.width r.piece.lines) losses.now }
{
    for loss in losses {
        let _ = loss.piece.rows();
    }
}
