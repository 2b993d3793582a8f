// A tariff of a/b pulses per charge interval over n elements: its pulse counts, and how often each stands in its map.
#![tactic(auto)]

ghost use Rattle.std.specs.Prelude.{◌≡◌, ◌<◌, ◌≤◌};
ghost use Rattle.fractions.specs.Components.{repx_of};
ghost use Rattle.fractions.specs.Answers.{parameters_answer, parameters_told};

// The pulse counts of a tariff, and how often each stands in its map.
#[derive(Clone, Copy, PartialEq, Eq, Debug)]
pub struct Parameters {
    pub pcn: u32,
    pub pcx: u32,
    pub repx: u32,
    pub repn: u32,
}

// n times the fraction part of a/b, rounded half up.
fn repx_of(a: u32, b: u32, n: u32) -> u32
    requires b_nonzero { 0 < b }
    requires n_bound { n ≤ 100 }
    ensures { result ≡ repx_of a b n }
{
    let (p, q) = (u64::from(n) * u64::from(a % b), u64::from(b));
    ((2 * p + q) / (2 * q)) as u32
}

// The parameters of a tariff; none is refusal 9.
#[tactic(auto, using(crate::proofs::Components::round_up, crate::proofs::Components::repx_le), unfolding(crate::specs::Answers::no_tariff))]
pub fn parameters_of(a: u32, b: u32, n: u32) -> Option<Parameters>
    ensures { parameters_told result ≡ parameters_answer a b n }
{
    if b == 0 || !matches!(n, 1..=100) {
        return None;
    }
    let pcx = a.div_ceil(b);
    if pcx > 65535 {
        return None;
    }
    let repx = repx_of(a, b, n);
    Some(Parameters {
        pcn: a / b,
        pcx,
        repx,
        repn: n - repx,
    })
}
