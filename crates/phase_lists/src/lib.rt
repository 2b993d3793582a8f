// The seven phase lists of a descriptor, read and judged in one pass.
#![tactic(auto)]

ghost use Rattle.std.specs.Prelude.{◌≡◌, get_or};
ghost use Rattle.phase_lists.specs.Lists.{phase_of, lists_in, no_lists};
ghost use Rattle.phase_lists.specs.Tables.{no_table, phase_count, schedule_in, table_of};

use rules::Carry;
use tariff::{Phase, Schedule};

// The seven phase lists of a descriptor.
// Stays: seven lists and no slice of phases, since their lengths may differ, which is refusal 5.
#[derive(Clone, Copy)]
pub struct PhaseLists<'a> {
    pub pri: &'a [u32],
    pub pcx: &'a [u32],
    pub repx: &'a [u32],
    pub pcn: &'a [u32],
    pub repn: &'a [u32],
    pub ci: &'a [u32],
    pub pd: &'a [u32],
}

// Phases read from seven lists: what they leave to carry, and the first eight of them at the front of an array.
// Stays: the number of phases is one of those that are carried, and nine there stands for more than eight.
#[derive(Clone, Copy, PartialEq, Eq, Debug)]
pub struct PhaseTable {
    pub carry: Carry,
    pub phases: [Phase; 8],
}

impl PhaseTable {
    // The table of no phases.
    pub fn empty() -> PhaseTable
        ensures { result ≡ no_table }
    {
        PhaseTable {
            carry: Carry::start(),
            phases: [Phase::default(); 8],
        }
    }
}

// The first phases of a table, and how many it has.
impl From<PhaseTable> for Schedule {
    ghost from_gives = { λ table schedule. schedule ≡ schedule_in table };

    fn from(table: PhaseTable) -> Schedule {
        let PhaseTable { carry, phases } = table;
        Schedule {
            count: carry.count,
            phases,
        }
    }
}

// The number at a place of a list; past its end 0.
fn number_at(list: &[u32], i: usize) -> u32
    ensures { result ≡ get_or list.now i 0 }
{
    list.get(i).copied().unwrap_or(0)
}

impl PhaseLists<'static> {
    // Seven lists without a number, for a descriptor that is not phased.
    pub fn empty() -> PhaseLists<'static>
        ensures { lists_in result ≡ no_lists }
    {
        PhaseLists {
            pri: &[],
            pcx: &[],
            repx: &[],
            pcn: &[],
            repn: &[],
            ci: &[],
            pd: &[],
        }
    }
}

impl PhaseLists<'_> {
    // How many phases the lists hold: their one length, or none where their lengths differ.
    // Stays: 0 there, and no None, since lists without a number are refused alike, with 5.
    #[tactic(auto, unfolding(crate::specs::Tables::phase_count))]
    fn count(self) -> usize
        ensures { result ≡ phase_count (lists_in self.entry) }
    {
        let n = self.pri.len();
        let same = self.pcx.len() == n
            && self.repx.len() == n
            && self.pcn.len() == n
            && self.repn.len() == n
            && self.ci.len() == n
            && self.pd.len() == n;
        if same { n } else { 0 }
    }

    // The phase that stands at a place of the lists.
    fn phase(self, i: usize) -> Phase
        ensures { result ≡ phase_of (lists_in self.entry) i }
    {
        Phase {
            pri: number_at(self.pri, i),
            pcx: number_at(self.pcx, i),
            repx: number_at(self.repx, i),
            pcn: number_at(self.pcn, i),
            repn: number_at(self.repn, i),
            ci: number_at(self.ci, i),
            pd: number_at(self.pd, i),
        }
    }

    // The phases of the lists, on a line of this spacing. Each is read once, and met once.
    pub fn read(self, spacing: u32) -> PhaseTable
        ensures { result ≡ table_of spacing (lists_in self.entry) }
    {
        let mut table = PhaseTable::empty();
        for i in 0..self.count() {
            let p = self.phase(i);
            table.carry = table.carry.meet(spacing, p);
            // Stays: a test of the place. std says of `get_mut` what it finds, and not what the array holds after a
            // write.
            if i < 8 {
                table.phases[i] = p;
            }
        }
        table
    }
}
