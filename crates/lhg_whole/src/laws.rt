// What callers may rest on: the laws of whole numbers and of lifted rows.
ghost use Rattle.lhg_num.specs.Arithmetic.{IsLawful};
ghost use Rattle.lhg_whole.specs.Laws.{LiftLaws};
ghost use Rattle.lhg_whole.specs.WholeArithmetic.{whole_arithmetic};

/// Whole numbers keep the laws of a number type.
pub fn law_whole()
    ensures { IsLawful whole_arithmetic }
{}

/// Lifted rows are multiples that all scaling leaves in their place.
pub fn law_lift()
    ensures { LiftLaws }
{}
