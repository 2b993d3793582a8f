// A call on a line, each step checked from the contracts alone: an em with an add-on charge of two pulses. And phases
// that charge by the count of a phase, checked from the contracts and the claim of phase_total.
#![tactic(auto)]

ghost use Rattle.std.specs.Prelude.{◌≡◌, true};
ghost use Rattle.phase_lists.specs.Lists.{no_lists};
ghost use Rattle.line.specs.Lines.{describe_of};
ghost use Rattle.line_examples.specs.Tells.{is_tariff, accepts, refuses};

use answers::Front;
use check::expect;
use descriptor::{BurstPart, Configuration, Descriptor, Hook, TariffPart};
use line::{Line, Verdict};
use phase_lists::PhaseLists;
use phase_total::Charging;
use tariff::Em;

fn is_tariff(front: Option<Front>) -> bool
    ensures { result ≡ is_tariff front }
{
    front == Some(Front::Tariff)
}

fn accepted(cancelled: u32, verdict: Verdict) -> bool
    ensures { result ≡ accepts cancelled verdict }
{
    verdict.is_ok_and(|n| n == cancelled)
}

fn refused(number: u32, verdict: Verdict) -> bool
    ensures { result ≡ refuses number verdict }
{
    verdict.is_err_and(|why| why.number() == number)
}

// A descriptor without phases.
fn ask(line: Line, tariff: TariffPart, burst: BurstPart) -> line::Answered
    ensures { result ≡ describe_of line tariff no_lists burst }
{
    line.describe(Descriptor::Parts {
        tariff,
        lists: PhaseLists::empty(),
        burst,
    })
}

// The line takes the phases that charge by the count of a phase: 7/3 pulses in each 25 of 180 seconds.
fn takes_count(line: Line) -> bool
    requires { line.spacing ≡ 100 }
    ensures { result ≡ true }
{
    let charging = Charging {
        a: 7,
        b: 3,
        ci: 25,
        pd: 180,
        pri: 1000,
    };
    let phases = charging.phases(line.spacing).unwrap();
    let given = phases.descriptor(TariffPart::Phased, BurstPart::Keep);
    accepted(0, line.describe(given).verdict)
}

#[tactic(auto, unfolding(burst::specs::Bursts::aged_of, ticking::specs::Moves::burst_after, line::specs::Lines::burst_changed, burst::specs::Bursts::completes_of, line::specs::Lines::describe_of, rules::specs::Rules::distance_of, steps::specs::Steps::due_of, tariff::specs::Tariffs::em_of, line::specs::Lines::fresh_line, line::specs::Lines::hook_of, line::specs::Lines::make_of, ticking::specs::Moves::moved_by, descriptor::specs::Refusals::ruling, rules::specs::Rules::sound_em, steps::specs::Steps::step_of, line::specs::Lines::tariff_changed, line::specs::Lines::tick_of))]
fn main() {
    let given = Configuration {
        pulse: 50,
        gap: 50,
        clock: 0,
    };
    let fresh = Line::make(given).unwrap();
    let early = TariffPart::Em(Em {
        count: 0,
        period: 199,
    });
    expect(refused(4, ask(fresh, early, BurstPart::Keep).verdict));
    expect(takes_count(fresh));
    let em = TariffPart::Em(Em {
        count: 0,
        period: 400,
    });
    let charge = BurstPart::Start {
        pulses: 2,
        interval: 1,
    };
    let call = ask(fresh, em, charge);
    expect(accepted(0, call.verdict));
    let first = call.line.tick();
    expect(is_tariff(first.tick.front));
    let down = first.line.hook(Hook::Stop);
    expect(accepted(2, down.verdict));
}
