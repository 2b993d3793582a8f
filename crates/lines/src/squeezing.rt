// A line without the bytes that say nothing.
ghost use Rattle.std.specs.Prelude.{◌≡◌, ◌++◌, length, drop};
ghost use Rattle.lines.specs.Squeezing.{run_after, is_redundant, squeezed};

// How the bytes so far end: whether with a blank, and with how many zeros, eleven at most.
#[derive(Clone, Copy, Default)]
pub struct Run {
    pub blank: bool,
    pub zeros: u32,
}

impl Run {
    // Whether byte b says nothing: a blank after a blank, or a zero after eleven zeros.
    fn is_redundant(self, b: u8) -> bool
        ensures { result ≡ is_redundant self b }
    {
        (b == b' ' && self.blank) || (b == b'0' && self.zeros >= 11)
    }

    // With byte b.
    fn after(self, b: u8) -> Run
        ensures { result ≡ run_after self b }
    {
        let zeros = if b == b'0' {
            self.zeros.saturating_add(1).min(11)
        } else {
            0
        };
        Run {
            blank: b == b' ',
            zeros,
        }
    }
}

// Moves the bytes that say something to the front, and answers how many they are.
pub(crate) fn squeeze(buf: &mut [u8]) -> usize
    ensures value { result ≡ length (squeezed buf.old) }
    ensures buf_after { buf.new ≡ squeezed buf.old ++ drop result buf.old }
{
    let mut run = Run::default();
    let mut kept = 0;
    // Stays: the buffer that is read is written in the same turn, and a slice has no `retain`.
    for j in 0..buf.len() {
        let b = buf[j];
        if !run.is_redundant(b) {
            buf[kept] = b;
            kept += 1;
        }
        run = run.after(b);
    }
    kept
}
