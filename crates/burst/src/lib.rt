// A burst: what is owed, one tick on, whether its next pulse may start, and after that pulse's front.
#![tactic(auto)]

ghost use Rattle.std.specs.Prelude.{◌≡◌, ◌-◌};
ghost use Rattle.burst.specs.Bursts.{start_of, runs, is_running, burst_owed, held_more, older_of, completes_of, aged_of, is_due, any_due, rests, burst_quiet, begun_of};

// A burst: the pulses owed, the least distance of its fronts, and the ticks since its last front, held at that distance.
// Where the distance is 0 it does not run.
#[derive(Clone, Copy, PartialEq, Eq, Debug)]
pub struct Burst {
    pub owed: u32,
    pub distance: u32,
    pub since: u32,
}

// A burst or none one tick on, and whether it is complete.
#[derive(Clone, Copy, PartialEq, Eq, Debug)]
pub struct Aged {
    pub burst: Option<Burst>,
    pub complete: bool,
}

// One tick more, held at n.
pub fn held_more(n: u32, k: u32) -> u32
    ensures { result ≡ held_more n k }
{
    k.saturating_add(1).min(n)
}

impl Burst {
    // A burst of so many pulses, whose distance has passed.
    pub fn start(pulses: u32, distance: u32) -> Burst
        ensures { result ≡ start_of pulses distance }
    {
        Burst {
            owed: pulses,
            distance,
            since: distance,
        }
    }

    // Whether it runs.
    fn runs(self) -> bool
        ensures { result ≡ runs self }
    {
        0 < self.distance
    }

    // One tick on, while it runs on.
    pub fn older(self) -> Burst
        ensures { result ≡ older_of self }
    {
        Burst {
            since: held_more(self.distance, self.since),
            ..self
        }
    }

    // Whether it is complete one tick on: it runs, no pulse is owed, and the last one ends.
    #[tactic(auto, unfolding(crate::specs::Bursts::completes_of))]
    pub fn completes(self, pulse: u32) -> bool
        ensures { result ≡ completes_of pulse self }
    {
        self.owed == 0 && self.runs() && held_more(self.distance, self.since) == pulse
    }

    // Whether a pulse is owed, and its distance has passed.
    pub fn is_due(self) -> bool
        ensures { result ≡ is_due self }
    {
        0 < self.owed && self.distance <= self.since
    }

    // Whether nothing of it happens one tick on, where `passed` says whether S ticks will have passed since the last
    // front.
    #[tactic(auto, unfolding(crate::specs::Bursts::rests, crate::specs::Bursts::completes_of))]
    fn rests(self, pulse: u32, passed: bool) -> bool
        ensures { result ≡ rests pulse passed self }
    {
        if self.owed == 0 {
            !self.completes(pulse)
        } else {
            self.runs() && !(passed && self.older().is_due())
        }
    }

    // After a front of it.
    pub fn begun(self) -> Burst
        ensures { result ≡ begun_of self }
    {
        Burst {
            owed: self.owed.saturating_sub(1),
            since: 0,
            ..self
        }
    }
}

// Whether a burst runs.
pub fn is_running(burst: Option<Burst>) -> bool
    ensures { result ≡ is_running burst }
{
    burst.is_some_and(Burst::runs)
}

// The pulses that a burst or none owes.
pub fn owed(burst: Option<Burst>) -> u32
    ensures { result ≡ burst_owed burst }
{
    burst.map_or(0, |b| b.owed)
}

// Whether a burst runs, and is due.
pub fn any_due(burst: Option<Burst>) -> bool
    ensures { result ≡ any_due burst }
{
    burst.is_some_and(Burst::is_due)
}

// A burst or none one tick on.
#[tactic(auto, unfolding(crate::specs::Bursts::aged_of))]
pub fn age(burst: Option<Burst>, pulse: u32) -> Aged
    ensures { result ≡ aged_of pulse burst }
{
    match burst {
        Some(b) if b.completes(pulse) => Aged {
            burst: None,
            complete: true,
        },
        _ => Aged {
            burst: burst.map(Burst::older),
            complete: false,
        },
    }
}

// Whether nothing of a burst or none happens one tick on.
#[tactic(auto, unfolding(crate::specs::Bursts::burst_quiet))]
pub fn is_quiet(burst: Option<Burst>, pulse: u32, passed: bool) -> bool
    ensures { result ≡ burst_quiet pulse passed burst }
{
    burst.is_none_or(|b| b.rests(pulse, passed))
}
