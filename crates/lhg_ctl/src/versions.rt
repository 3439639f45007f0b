// Versions of a controller's text.
ghost use Rattle.std.specs.Prelude.{◌≡◌, All, codes, map};
ghost use Rattle.std.specs.Option.{option_and_then};
ghost use Rattle.lhg_lex.specs.TextTokens.{plain_of, IsSpan};
ghost use Rattle.lhg_ctl.specs.ControllerGrammar.{version_by};
ghost use Rattle.lhg_read.specs.Numbered as plain;

use lhg_lex::{Lines, Token};
use lhg_read::numbered;

/// A version of a controller's text.
#[derive(Clone, Copy, Debug, PartialEq, Eq)]
pub enum Version {
    /// Guards have no names, and the number of rounds is not said.
    First,
    /// The number of rounds is said, and each guard has a name.
    Second,
}

// The version with this number.
fn version_by(number: u32) -> Option<Version>
    ensures { result ≡ version_by number }
{
    match number {
        1 => Some(Version::First),
        2 => Some(Version::Second),
        _ => None,
    }
}

/// The version that a head says.
pub(crate) fn version_of(lines: &Lines, tokens: &[Token]) -> Option<Version>
    requires { All (IsSpan lines.now.bytes) tokens.now }
    ensures { result ≡ option_and_then version_by (plain.numbered (codes "controller") 2 (map (plain_of lines.now.bytes) tokens.now) (plain.sizes_of tokens.now)) }
{
    numbered(lines, tokens, b"controller", 2).and_then(version_by)
}
