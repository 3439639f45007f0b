// Rows and points over a number type.
ghost use Rattle.std.specs.Prelude.{◌≡◌};
ghost use Rattle.lhg_row.specs.Kinds as plain;

use lhg_num::Scalar;
use std::marker::Model;

/// Whether a row allows that its bound is reached.
#[derive(Clone, Copy, Debug, PartialEq, Eq)]
pub enum Kind {
    /// The sum is at most the bound.
    Weak,
    /// The sum is below the bound.
    Strict,
}

impl Kind {
    /// Whether the bound itself is left out.
    pub fn is_strict(self) -> bool
        ensures { result ≡ plain.is_strict self }
    {
        match self {
            Kind::Weak => false,
            Kind::Strict => true,
        }
    }
}

/// The sum of the coefficients times the variables is at most the bound, or below it where the row is strict.
/// There is one coefficient per variable.
#[derive(Drop)]
pub struct Row<N: Scalar> {
    pub coefs: Vec<N>,
    pub kind: Kind,
    pub bound: N,
}

impl<N: Scalar> Model for Row<N> {
    ghost use Rattle.std.specs.Prelude.{map};
    ghost use Rattle.lhg_row.specs.Row.{PlainRow};
    ghost use Rattle.lhg_row.specs.PlainCode.{row_code};

    ghost Value = { PlainRow };

    ghost coded = { row_code };

    ghost use Rattle.lhg_row.specs.Kinds.{is_strict};

    ghost view = { λ r. record { coefs = map N.meaning r.coefs.items; strict = is_strict r.kind; bound = N.meaning r.bound } };
}

/// One number per variable.
#[derive(Drop)]
pub struct Point<N: Scalar> {
    pub at: Vec<N>,
}

impl<N: Scalar> Model for Point<N> {
    ghost use Rattle.std.specs.Prelude.{map};
    ghost use Rattle.lhg_row.specs.Row.{PlainPoint};
    ghost use Rattle.lhg_row.specs.PlainCode.{point_code};

    ghost Value = { PlainPoint };

    ghost coded = { point_code };

    ghost view = { λ p. map N.meaning p.at.items };
}
