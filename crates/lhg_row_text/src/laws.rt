// How texts look, on small examples.
ghost use Rattle.lhg_row_text.specs.TextExamples.{RowExamples};

/// Rows and lists of rows as they are printed.
pub fn law_texts()
    ensures { RowExamples }
{}
