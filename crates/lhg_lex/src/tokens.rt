// Tokens.
use lhg_num::Frac;

/// What a token is.
#[derive(Clone, Copy, Debug, PartialEq, Eq)]
pub enum Tok {
    /// A letter or `_`, and then letters, digits and `_`.
    Word,
    /// A number, by its value in lowest terms.
    Number(Frac),
    /// One of the signs `< = > + - * , & '`.
    Sign(u8),
    /// `<=`, `>=` or `==`.
    TwoSign(u8, u8),
}

/// A token and its slice of the text: from `from` up to `to`, counted in bytes from 0.
#[derive(Clone, Copy, Debug, PartialEq, Eq)]
pub struct Token {
    pub kind: Tok,
    pub from: u32,
    pub to: u32,
}

/// A line that has tokens. Its number is counted from 1, over all lines of the text.
#[derive(Debug, Drop)]
pub struct Line {
    pub number: u32,
    pub tokens: Vec<Token>,
}
