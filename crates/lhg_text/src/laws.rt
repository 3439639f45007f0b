// What the text of a report determines.
ghost use Rattle.lhg_text.specs.ReportLaws.{ReportLaws};

/// For one plant, reports with equal bytes have the same number of rounds, pieces, guard pieces, and records as printed.
pub fn law_reports()
    ensures { ReportLaws }
{}
