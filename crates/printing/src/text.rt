// A text that is printed in one piece.
ghost use Rattle.std.specs.Prelude.{◌≡◌, ◌++◌, []};
ghost use Rattle.printing.specs.Text.{digits_of, pair_text};
ghost use Rattle.printing.specs.Room.{extended};

use arrayvec::ArrayVec;
use itoa::Buffer;
use std::io::Write;
use std::marker::Model;

// The room of a text: the length of the longest that is printed.
pub const ROOM: usize = 69;

// A text that is printed.
#[derive(Drop)]
pub struct Text {
    bytes: ArrayVec<u8, ROOM>,
}

impl Model for Text {
    ghost use Rattle.std.specs.Prelude.{ℕ, List};

    ghost Value = { List ℕ };

    ghost view = { λ text. text.bytes.items };
}

impl Text {
    // A text of no bytes.
    pub(crate) fn new() -> Text
        ensures { result ≡ [] }
    {
        Text {
            bytes: ArrayVec::new(),
        }
    }

    // Puts bytes at the end, as many as have room: that is what the vector takes, and it never fails.
    pub(crate) fn put(&mut self, bytes: &[u8])
        ensures { self.new ≡ extended self.old bytes.now }
    {
        if self.bytes.try_extend_from_slice(bytes).is_err() {
            let _some = self.bytes.write(bytes);
        }
    }

    // Puts a number and a text after it at the end.
    pub(crate) fn put_number(&mut self, n: u32, tail: &[u8])
        ensures { self.new ≡ extended self.old (digits_of n ++ tail.now) }
    {
        self.put(Buffer::new().format(n).as_bytes());
        self.put(tail);
    }

    // Puts a number between two texts at the end.
    pub(crate) fn put_around(&mut self, head: &[u8], n: u32, tail: &[u8])
        ensures { self.new ≡ extended self.old (head.now ++ digits_of n ++ tail.now) }
    {
        self.put(head);
        self.put_number(n, tail);
    }

    // The bytes of the text.
    pub fn as_slice(&self) -> &[u8]
        ensures { result.now ≡ self.now }
    {
        self.bytes.as_slice()
    }
}

// The line of two numbers after a head.
pub(crate) fn pair(head: &[u8], a: u32, b: u32) -> Text
    ensures { result ≡ extended [] (pair_text head.now a b) }
{
    let mut text = Text::new();
    text.put_around(head, a, b" ");
    text.put_number(b, b"\n");
    text
}
