// The bytes of a line that count.
ghost use Rattle.std.specs.Prelude.{◌≡◌, ◌==◌};
ghost use Rattle.std.specs.List.{before_first, position_or_len};
ghost use Rattle.lhg_lex.specs.LineTokens.{content_of, without_return};

// The place of the first such byte, or the length where it does not occur.
fn place_of(mark: u8, bytes: &[u8]) -> usize
    ensures { result ≡ position_or_len (λ b. b == mark) bytes.now }
{
    bytes.iter().take_while(|b| **b != mark).count()
}

// What stands before the first such byte, or all where it does not occur.
fn before(mark: u8, bytes: &[u8]) -> &[u8]
    ensures { result.now ≡ before_first (λ b. b == mark) bytes.now }
{
    let end = place_of(mark, bytes);
    &bytes[..end]
}

/// The first line of a text, without its line feed.
pub(crate) fn first_line(text: &[u8]) -> &[u8]
    ensures { result.now ≡ before_first (λ b. b == 10) text.now }
{
    before(b'\n', text)
}

fn without_return(line: &[u8]) -> &[u8]
    ensures { result.now ≡ without_return line.now }
{
    let end = line.len();
    if end > 0 && line[end - 1] == b'\r' {
        &line[..end - 1]
    } else {
        line
    }
}

/// The bytes of a line without one carriage return at its end and without its comment.
pub(crate) fn content(line: &[u8]) -> &[u8]
    ensures { result.now ≡ content_of line.now }
{
    before(b'#', without_return(line))
}
