// Prints words and whole numbers, each behind a space.
ghost use Rattle.std.specs.Prelude.{◌≡◌, ◌≤◌, ◌++◌, ◌∷◌, OnOk, decimal};
ghost use Rattle.lhg_lex.specs.Literal.{limit};

use itoa::Buffer;
use std::alloc::AllocError;

/// Appends a space and a word.
pub(crate) fn push_word(text: &mut Vec<u8>, word: &[u8]) -> Result<(), AllocError>
    ensures { OnOk result (text.new.items ≡ text.old.items ++ 32 ∷ word.now) }
{
    text.extend_from_slice(b" ")?;
    text.extend_from_slice(word)
}

/// Appends a space and a whole number.
pub(crate) fn push_whole(text: &mut Vec<u8>, n: u32) -> Result<(), AllocError>
    ensures text { OnOk result (text.new.items ≡ text.old.items ++ 32 ∷ decimal n) }
    ensures short { OnOk result (n ≤ limit) }
{
    let mut buffer = Buffer::new();
    push_word(text, buffer.format(n).as_bytes())
}
