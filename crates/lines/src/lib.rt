// The lines of an input that comes piece by piece into a buffer.
#![tactic(auto)]

ghost use Rattle.std.specs.Prelude.{◌≡◌, replicate};
ghost use Rattle.lines.specs.Reads.{Onward};
ghost use Rattle.lines.specs.Spans.{begun, next_of, over_of, part};

mod buffer;
mod progress;
mod reading;
mod squeezing;

pub use buffer::text;
pub use progress::Progress;
use std::io::Read;

// A reader, a buffer of N bytes into which it is read, and how far it is read and taken. A caller that has a buffer of its
// own lends it to a `Progress` at each call.
#[derive(Drop)]
pub struct Input<R, const N: usize> {
    pub from: R,
    pub buf: [u8; N],
    pub at: Progress,
}

// A line of the input, without its line feed: whether the buffer holds all that it says, its first place, and the place
// after its last.
#[derive(Clone, Copy)]
pub struct Span {
    pub whole: bool,
    pub from: usize,
    pub to: usize,
}

impl<R, const N: usize> Input<R, N> {
    // Before the first read.
    pub fn new(from: R) -> Self
        ensures reader { result.from ≡ from }
        ensures progress { result.at ≡ begun }
        ensures buffer { result.buf ≡ replicate N 0 }
    {
        Input {
            from,
            buf: [0; N],
            at: Progress::begun(),
        }
    }

    // The next line, if all of it was read or dropped.
    pub fn next(&self) -> Option<Span>
        ensures { result ≡ next_of self.now.buf self.now.at }
    {
        self.at.next(&self.buf)
    }

    // Whether the input has ended and no line is left.
    pub fn is_over(&self, line: Option<Span>) -> bool
        ensures { result ≡ over_of self.now.at line }
    {
        self.at.is_over(line)
    }

    // The bytes of a line.
    pub fn text(&self, line: Span) -> &[u8]
        ensures { result.now ≡ part line.from line.to self.now.buf }
    {
        text(&self.buf, line)
    }
}

impl<R: Read, const N: usize> Input<R, N> {
    // Goes past a line, or reads once more where there is none.
    pub fn onward(&mut self, line: Option<Span>)
        ensures { Onward line self.old.buf self.old.at self.new.buf self.new.at }
    {
        self.at = self.at.onward(&mut self.from, &mut self.buf, line);
    }
}
