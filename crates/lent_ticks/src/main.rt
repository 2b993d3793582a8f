// Ticks a line where it lies, or a row of 64, for timing: twenty rounds of the case that standard input names, of
// 7,200,000 ticks each.
#![tactic(auto)]

ghost use Rattle.std.specs.Prelude.{◌≡◌};
ghost use Rattle.lent_ticks.specs.Runs.{repeated, after_ticks, row_after, ticked_all};

use descriptor::{BurstPart, Configuration, Descriptor, TariffPart};
use line::Line;
use phase_lists::PhaseLists;
use std::io;
use std::io::Read;
use tariff::Em;

const TICKS: u32 = 7200000;

const ROW_TICKS: u32 = 112500;

// A value after n steps, each of which moves it on where it lies.
fn stepped<T, F: Fn(&mut T)>(mut value: T, n: u32, step: F) -> T
    requires { F.IsAlwaysCallable step }
    ensures { (once : T → T) → ((x : _) (y : _) → F.post step x tt y → y.now ≡ once x.now) →
        result ≡ repeated once n value }
{
    for _ in 0..n {
        step(&mut value);
    }
    value
}

// A line after n ticks, each of which moves it on where it lies.
fn ticked(line: Line, n: u32) -> Line
    ensures { result ≡ after_ticks n line }
{
    stepped(line, n, |line| {
        lent::tick_in_place(line);
    })
}

// One tick of each line of a lent row, in order.
fn tick_row(row: &mut [Line])
    ensures { row.new ≡ ticked_all row.old }
{
    for line in row {
        lent::tick_in_place(line);
    }
}

// A row of 64 lines after n ticks, each of which moves every line on where it lies.
fn row_ticked(row: [Line; 64], n: u32) -> [Line; 64]
    ensures { result ≡ row_after n row }
{
    stepped(row, n, |row| tick_row(row))
}

// A line after n ticks by value.
fn valued(line: Line, n: u32) -> Line
    ensures { result ≡ after_ticks n line }
{
    stepped(line, n, |line| *line = line.tick().line)
}

// A line with this descriptor, of the three phases that the plain program's case has.
fn described(tariff: TariffPart, burst: BurstPart) -> Line {
    let lists = PhaseLists {
        pri: &[1000, 500, 250],
        pcx: &[3, 5, 3],
        repx: &[37, 3, 2],
        pcn: &[2, 4, 2],
        repn: &[63, 7, 5],
        ci: &[5, 5, 1],
        pd: &[2400, 2400, 0],
    };
    let given = Descriptor::Parts {
        tariff,
        lists,
        burst,
    };
    let fresh = Line::make(Configuration {
        pulse: 50,
        gap: 50,
        clock: 0,
    });
    fresh.unwrap_or_default().describe(given).line
}

// An em of this period that does not end.
fn em(period: u32) -> TariffPart {
    TariffPart::Em(Em { count: 0, period })
}

// The line of a case, which its first letter names: e for an em, p for a phased tariff, any other for a burst beside an
// em.
fn line_of(letter: u8) -> Line {
    match letter {
        b'e' => described(em(400), BurstPart::None),
        b'p' => described(TariffPart::Phased, BurstPart::None),
        _ => described(
            em(1000),
            BurstPart::Start {
                pulses: 65535,
                interval: 1,
            },
        ),
    }
}

// The pulses of a line.
fn counted(line: &Line) -> u64 {
    u64::from(line.state.counters.cpc)
}

// The pulses of one round of a row of 64 such lines, which has as many ticks in all.
fn row_pulses(line: Line) -> u64 {
    let row = row_ticked([line; 64], ROW_TICKS);
    row.iter()
        .fold(0u64, |total, line| total.wrapping_add(counted(line)))
}

// How ticks are made: on a lent line, on a lent row of 64, or by value.
#[derive(Clone, Copy)]
enum Way {
    Lent,
    Row,
    Value,
}

// What is timed: a way, and the case that a letter names.
#[derive(Clone, Copy)]
struct Case {
    letter: u8,
    way: Way,
}

// The way that a letter names: r for a row, v for by value, any other for a lent line.
fn way_of(letter: u8) -> Way {
    match letter {
        b'r' => Way::Row,
        b'v' => Way::Value,
        _ => Way::Lent,
    }
}

// Reads until the buffer is full or the input ends.
fn read_full(from: &mut impl Read, buf: &mut [u8]) -> io::Result<()> {
    let mut done = 0;
    while let got @ 1.. = from.read(&mut buf[done..])? {
        done += got;
    }
    Ok(())
}

// What standard input asks for: a case; or `row` or `val`, and a case.
fn asked(from: &mut impl Read) -> io::Result<Case> {
    let mut buf = [0; 5];
    read_full(from, &mut buf)?;
    let way = way_of(buf[0]);
    let letter = match way {
        Way::Lent => buf[0],
        Way::Row | Way::Value => buf[4],
    };
    Ok(Case { letter, way })
}

// The pulses of one round, which begins with the line as it is.
fn round(line: Line, way: Way) -> u64 {
    match way {
        Way::Lent => counted(&ticked(line, TICKS)),
        Way::Row => row_pulses(line),
        Way::Value => counted(&valued(line, TICKS)),
    }
}

fn main(rt: HostRuntime) -> io::Result<()> {
    let Case { letter, way } = asked(&mut rt.stdin())?;
    let line = line_of(letter);
    let pulses = (0..20).fold(0u64, |total, _| total.wrapping_add(round(line, way)));
    println!(rt; "{pulses}")
}
