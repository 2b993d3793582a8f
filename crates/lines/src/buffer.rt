// Parts of the buffer.
ghost use Rattle.std.specs.Prelude.{◌≡◌, position};
ghost use Rattle.lines.specs.Spans.{part, is_line_feed};

use super::Span;

// The bytes from the place `from` on and before the place `to`, as far as there are any.
#[tactic(auto, unfolding(crate::specs::Spans::part))]
pub(crate) fn part(buf: &[u8], from: usize, to: usize) -> &[u8]
    ensures { result.now ≡ part from to buf.now }
{
    buf.get(from..to.min(buf.len())).unwrap_or(&[])
}

// The place of the first line feed, if there is one.
pub(crate) fn line_feed(bytes: &[u8]) -> Option<usize>
    ensures { result ≡ position is_line_feed bytes.now }
{
    bytes.iter().position(|b| *b == b'\n')
}

// The bytes of a line.
pub fn text(buf: &[u8], line: Span) -> &[u8]
    ensures { result.now ≡ part line.from line.to buf.now }
{
    part(buf, line.from, line.to)
}
