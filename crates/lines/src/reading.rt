// Reads of an input into a buffer.
ghost use Rattle.std.specs.Prelude.{◌≡◌, ◌-◌, ◌≤◌, length, take};
ghost use Rattle.lines.specs.Reads.{More, Onward};
ghost use Rattle.lines.specs.Rooms.{fronted, room_of};

use super::squeezing::squeeze;
use super::{Progress, Span};
use std::io::Read;

// Reads once, to the places from `end` on, and answers how many bytes came: 0 at the end of the input, and where the
// read fails.
fn read_once(from: &mut impl Read, buf: &mut [u8], end: usize) -> usize
    ensures upper_bound { result ≤ length buf.old - end }
    ensures buf_unchanged { take end buf.new ≡ take end buf.old }
{
    let end = end.min(buf.len());
    from.read(&mut buf[end..]).unwrap_or(0)
}

impl Progress {
    // Room for more: what is not yet taken moves to the front. Where it fills the buffer, bytes that say nothing are
    // left out of it, and it is dropped if over half of the buffer is taken still.
    #[tactic(auto, using(crate::proofs::RoomLaws::rooms))]
    fn with_room(self, buf: &mut [u8]) -> Progress
        ensures value { result ≡ room_of buf.old self }
        ensures buf_after { buf.new ≡ fronted buf.old self }
    {
        let size = buf.len();
        let end = self.end.min(size);
        let start = self.start.min(end);
        let held = end - start;
        if held < size {
            buf.copy_within(start..end, 0);
            return Progress::at_front(held, self.dropped);
        }
        let kept = squeeze(buf);
        if size / 2 < kept {
            return Progress::at_front(0, true);
        }
        Progress::at_front(kept, self.dropped)
    }

    // After one more read.
    fn more(self, from: &mut impl Read, buf: &mut [u8]) -> Progress
        ensures { More buf.old self buf.new result }
    {
        let room = self.with_room(buf);
        let got = read_once(from, buf, room.end);
        room.fed(buf.len(), got)
    }

    // Past a line, or after one more read where there is none.
    pub fn onward(self, from: &mut impl Read, buf: &mut [u8], line: Option<Span>) -> Progress
        ensures { Onward line buf.old self buf.new result }
    {
        match line {
            Some(line) => self.past(line.to),
            None => self.more(from, buf),
        }
    }
}
