// Output by way of a buffer.
#![tactic(auto)]

ghost use Rattle.std.specs.Prelude.{◌≡◌, ◌+◌, ◌≤◌, ◌++◌, length, true, [], IsOk, OnOk, IfOk};
ghost use Rattle.std.specs.Io.KnownBytes.{Appends, Keeps};
ghost use Rattle.arrayvec.specs.ArrayVec.{array_vec_len};
ghost use Rattle.outlet.specs.Held.{known_of, has_room, room_made};

use arrayvec::ArrayVec;
use std::io;
use std::io::{ErrorKind, Write};

// A writer, and the bytes for it that are held back.
// Stays: beside std's BufWriter, whose bytes lie on a heap, which the gateway does not have.
#[derive(Drop)]
pub struct Outlet<W> {
    pub to: W,
    pub held: ArrayVec<u8, 65536>,
}

impl<W: Write> Outlet<W> {
    pub fn new(to: W) -> Outlet<W>
        ensures writer { result.to ≡ to }
        ensures empty { result.held.items ≡ [] }
    {
        Outlet {
            to,
            held: ArrayVec::new(),
        }
    }

    // Writes out what is held back. After a failure, too, nothing is held back any more.
    // Stays: beside the flush of a writer, which has to keep what is known, and so holds back what was not written.
    pub fn flush(&mut self) -> io::Result<()>
        ensures sent { OnOk result (Appends (W.contents self.old.to) (W.contents self.new.to) self.old.held.items) }
        ensures empty { self.new.held.items ≡ [] }
    {
        let sent = self.to.write_all(self.held.as_slice());
        self.held.clear();
        sent
    }

    // Makes room for n bytes, so that a text of at most n bytes is put in one piece: where they have none, what is held
    // back is written out, all of it. Where they have, nothing is written, and the outlet stays.
    #[tactic(auto, unfolding(crate::specs::Held::room_made))]
    pub fn make_room(&mut self, n: usize) -> io::Result<()>
        ensures held { self.new.held.items ≡ room_made n self.old.held.items }
        ensures bytes { OnOk result (Keeps (known_of W.contents self.old) (known_of W.contents self.new)) }
        ensures stays { has_room n self.old.held.items ≡ true → IsOk result × (self.new.to ≡ self.old.to) }
        ensures room { n ≤ 65536 → array_vec_len self.new.held + n ≤ 65536 }
    {
        if self.held.remaining_capacity() < n {
            return self.flush();
        }
        Ok(())
    }

    // Puts a text, in one piece where it has at most n bytes: room is made for n first, so that no write ends within it.
    pub fn put(&mut self, text: &[u8], n: usize) -> io::Result<()>
        ensures bytes { OnOk result (Appends (known_of W.contents self.old) (known_of W.contents self.new) text.now) }
        ensures whole { length text.now ≤ n → n ≤ 65536 →
            OnOk result (self.new.held.items ≡ room_made n self.old.held.items ++ text.now) }
    {
        self.make_room(n)?;
        if self.held.try_extend_from_slice(text).is_ok() {
            return Ok(());
        }
        self.write_all(text)
    }

    // Writes out some of what is held back, and moves the rest to the front.
    fn write_some(&mut self) -> io::Result<usize>
        ensures sent { IfOk result (λ n. array_vec_len self.new.held + n ≡ array_vec_len self.old.held) }
        ensures bytes { Keeps (known_of W.contents self.old) (known_of W.contents self.new) }
    {
        let sent = self.to.write(self.held.as_slice())?;
        let rest = self.held.len() - sent;
        self.held.copy_within(sent.., 0);
        self.held.truncate(rest);
        Ok(sent)
    }
}

impl<W: Write> Write for Outlet<W> {
    // What was written out, and then what is held back.
    ghost contents = { known_of W.contents };

    // Holds back what has room; where nothing has, some of what is held back is written out first.
    fn write(&mut self, bytes: &[u8]) -> io::Result<usize> {
        if self.held.is_full() {
            self.write_some()?;
        }
        self.held.write(bytes)
    }

    // Writes out what is held back. After a failure, what was not written is held back still. This is the flush of a
    // writer; `out.flush()` is the outlet's own.
    fn flush(&mut self) -> io::Result<()>
        ensures bytes { Keeps (known_of W.contents self.old) (known_of W.contents self.new) }
        ensures all { OnOk result (self.new.held.items ≡ []) }
    {
        while !self.held.is_empty() {
            if self.write_some()? == 0 {
                return Err(ErrorKind::WriteZero.into());
            }
        }
        self.to.flush()
    }
}
