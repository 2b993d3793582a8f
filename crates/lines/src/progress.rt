// How far an input is read into a buffer and taken, with a buffer that is lent at each call.
ghost use Rattle.std.specs.Prelude.{◌≡◌};
ghost use Rattle.lines.specs.Spans.{at_front, begun, last_of, next_of, over_of, past_of};
ghost use Rattle.lines.specs.Rooms.{fed_of};

use super::Span;
use super::buffer::{line_feed, part};

// The bytes `start` to `end` of the buffer are read and not yet taken. `dropped` is set within a line that is too long
// for the buffer, of which the first bytes were dropped, and `came` where the last read brought something.
// Stays: the buffer is lent at each call, and no invariant says that the places lie in it, in this order. One of any
// length can be lent, with any places; a type that owns its buffer, or has an invariant, asks more of its callers.
#[derive(Clone, Copy)]
pub struct Progress {
    pub start: usize,
    pub end: usize,
    pub dropped: bool,
    pub came: bool,
}

impl Progress {
    // With what is held at the front of the buffer, up to `end`.
    pub(crate) fn at_front(end: usize, dropped: bool) -> Progress
        ensures { result ≡ at_front end dropped }
    {
        Progress {
            start: 0,
            end,
            dropped,
            came: true,
        }
    }

    // Before the first read.
    pub fn begun() -> Progress
        ensures { result ≡ begun }
    {
        Progress::at_front(0, false)
    }

    // Whether a line is left at the end of the input: a last one without a line feed counts too.
    pub(crate) fn is_last(self) -> bool
        ensures { result ≡ last_of self }
    {
        !self.came && (self.dropped || self.start < self.end)
    }

    // The next line, if all of it was read into this buffer or dropped.
    #[tactic(auto, using(crate::proofs::FeedLaws::line_size, crate::proofs::PartLaws::length_part))]
    pub fn next(self, buf: &[u8]) -> Option<Span>
        ensures { result ≡ next_of buf.now self }
    {
        let held = part(buf, self.start, self.end);
        let size = line_feed(held).or(self.is_last().then_some(held.len()))?;
        Some(Span {
            whole: !self.dropped,
            from: self.start,
            to: self.start + size,
        })
    }

    // Whether the input has ended and no line is left.
    pub fn is_over(self, line: Option<Span>) -> bool
        ensures { result ≡ over_of self line }
    {
        line.is_none() && !self.came
    }

    // Past a line that ends at `to`, and its line feed.
    pub(crate) fn past(self, to: usize) -> Progress
        ensures { result ≡ past_of self to }
    {
        Progress {
            start: to.saturating_add(1).min(self.end),
            dropped: false,
            ..self
        }
    }

    // After a read that brought `got` bytes into a buffer of `size` bytes: none at the end of the input.
    pub(crate) fn fed(self, size: usize, got: usize) -> Progress
        ensures { result ≡ fed_of self size got }
    {
        let came = got.min(size.saturating_sub(self.end));
        Progress {
            end: self.end + came,
            came: came > 0,
            ..self
        }
    }
}
