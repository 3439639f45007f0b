// What callers may rest on: the laws of fractions, of scaling, of marks and of halts.
ghost use Rattle.lhg_num.specs.Arithmetic.{IsLawful};
ghost use Rattle.lhg_num.specs.FracArithmetic.{frac_arithmetic};
ghost use Rattle.lhg_num.specs.Laws.{ScaledLaws, MarkedLaws, HaltLaws, PartLaws, AnswerLaws};

/// Fractions keep the laws of a number type.
pub fn law_frac()
    ensures { IsLawful frac_arithmetic }
{}

/// A row is scaled to a positive multiple, also where the type does not hold its entries, and by the type's rule where it does.
pub fn law_scaled()
    ensures { ScaledLaws }
{}

/// Values with marks, step by step.
pub fn law_marked()
    ensures { MarkedLaws }
{}

/// Marks of parts, of other values and of walks.
pub fn law_parts()
    ensures { PartLaws }
{}

/// What is known of an answer, whatever it may halt for.
pub fn law_answers()
    ensures { AnswerLaws }
{}

/// A halt is handed on by its mark.
pub fn law_halts()
    ensures { HaltLaws }
{}
