// What follows from the definitions of lines and tokens.
ghost use Rattle.std.specs.Prelude.{◌≡◌};
ghost use Rattle.lhg_lex.specs.declared.cursor.TheConstants.{TEXT_LIMIT};
ghost use Rattle.lhg_lex.specs.Lines.{most_bytes};
ghost use Rattle.lhg_lex.specs.Example.{LineFacts, TokenFacts, NumberFacts};
ghost use Rattle.lhg_lex.specs.Laws.{TokenLaws, LongestLaws, ContentLaws, LineLaws, TextLaws, NextLaws, FirstBadLaws};

/// A token is of one kind, and the longest token at the front of a text is one alone.
pub fn law_tokens()
    ensures kinds { TokenLaws }
    ensures longest { LongestLaws }
{}

/// The tokens of a line are determined, and are its slices in order; so is its first token error.
pub fn law_line()
    ensures content { ContentLaws }
    ensures line { LineLaws }
{}

/// Where the lines of a text end and begin, and which comes next.
pub fn law_text()
    ensures lines { TextLaws }
    ensures next { NextLaws }
{}

/// `TEXT_LIMIT`, the longest text that is read, is the limit of the definitions.
pub fn law_limit()
    ensures { TEXT_LIMIT ≡ most_bytes }
{}

/// The first line of a text that cannot stand there is one alone.
pub fn law_first_bad()
    ensures { FirstBadLaws }
{}

/// What the definitions say of a few lines and numbers.
pub fn law_example()
    ensures lines { LineFacts }
    ensures tokens { TokenFacts }
    ensures numbers { NumberFacts }
{}
