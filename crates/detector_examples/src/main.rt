// A script of requests and pulses that shows each rule of the detector. Each comment quotes the rule of the line that
// is written there.
#![tactic(auto)]

mod print; // print.rt: one line of output for each answer

use detector::Detector;
use detector::request::Events;
use std::io;

// The descriptor with neither event.
const NEITHER: Events = Events {
    pr: None,
    ric: None,
};

fn pr(rp: u32) -> Events {
    Events {
        pr: Some(rp),
        ..NEITHER
    }
}

fn ric(rit: u32) -> Events {
    Events {
        ric: Some(rit),
        ..NEITHER
    }
}

fn both(rp: u32, rit: u32) -> Events {
    Events {
        pr: Some(rp),
        ric: Some(rit),
    }
}

// A request, and its answer written.
fn ask(rt: &impl Print, d: Detector, events: Events) -> io::Result<Detector> {
    let r = d.request(events);
    print::answer(rt, r.answer)?;
    Ok(r.detector)
}

// One tick, and what it gives written.
fn tick(rt: &impl Print, d: Detector, pulse: bool) -> io::Result<Detector> {
    let t = d.tick(pulse);
    print::notification(rt, t.notification)?;
    Ok(t.detector)
}

// Ticks without a pulse.
fn silence(rt: &impl Print, mut d: Detector, ticks: u32) -> io::Result<Detector> {
    for _ in 0..ticks {
        d = tick(rt, d, false)?;
    }
    Ok(d)
}

// A pulse after so many ticks without one.
fn pulse_after(rt: &impl Print, d: Detector, ticks: u32) -> io::Result<Detector> {
    tick(rt, silence(rt, d, ticks)?, true)
}

fn audit(rt: &impl Print, d: Detector) -> io::Result<Detector> {
    let a = d.audit();
    print::audit(rt, a)?;
    Ok(a.detector)
}

fn refusals(rt: &impl Print, d: Detector) -> io::Result<Detector> {
    // audit -1 0 0: "a fresh one is off, lri −1, its counters 0"
    let d = audit(rt, d)?;
    // audit -1 0 0: "While it is off, ticks change nothing."
    let d = audit(rt, pulse_after(rt, d, 5)?)?;
    // no 459: "pr and ric together"
    let d = ask(rt, d, both(1, 1))?;
    // no 459: "459 comes before 10"
    let d = ask(rt, d, both(0, 60001))?;
    // no 10: "detector rp = 0"
    let d = ask(rt, d, pr(0))?;
    // no 10: "rit over 60,000"
    let d = ask(rt, d, ric(60001))?;
    // audit -1 0 0: a refusal's "Left as it was" is the detector
    audit(rt, d)
}

fn intervals(rt: &impl Print, d: Detector) -> io::Result<Detector> {
    // ok, audit -1 0 0: "another non-off one zeroes the counters and sets lri to −1"
    let d = audit(rt, ask(rt, d, ric(3))?)?;
    // event 0 1, audit 0 1 0: "a pulse at lri −1 gives event (0, pcslr) and lri 0"; "Each event zeroes pcslr."
    let d = audit(rt, pulse_after(rt, d, 9)?)?;
    // event 20 1, audit 20 2 0: "at lri 0, event (e, pcslr) and lri = e"
    let d = audit(rt, pulse_after(rt, d, 19)?)?;
    // audit 20 3 1: "Each pulse adds 1 to both counters"; the interval is as before
    let d = audit(rt, pulse_after(rt, d, 19)?)?;
    // audit 20 4 2: "only if e < lri − rit": 17 is not below 20 − 3
    let d = audit(rt, pulse_after(rt, d, 16)?)?;
    // event 16 3, audit 16 5 0: "at lri above 0, only if e < lri − rit, event (e, pcslr) and lri = e": 16 is
    audit(rt, pulse_after(rt, d, 15)?)
}

fn silences(rt: &impl Print, d: Detector) -> io::Result<Detector> {
    // audit 16 5 0: no event before "e = lri + rit", 16 + 3
    let d = audit(rt, silence(rt, d, 18)?)?;
    // event 0 0, audit 0 5 0: "A tick without a pulse where lri > 0 and e = lri + rit gives event (0, pcslr) and
    // lri 0."
    let d = audit(rt, silence(rt, d, 1)?)?;
    // event 25 1, audit 25 6 0: "at lri 0, event (e, pcslr) and lri = e"; "e is the ticks from the last pulse to
    // this tick"
    audit(rt, pulse_after(rt, d, 5)?)
}

fn requests(rt: &impl Print, d: Detector) -> io::Result<Detector> {
    // ok, audit 25 6 0: "The same request again changes nothing"
    let d = audit(rt, ask(rt, d, ric(3))?)?;
    // ok, audit -1 0 0: "another non-off one zeroes the counters and sets lri to −1"
    let d = audit(rt, ask(rt, d, ric(60000))?)?;
    // event 0 1: "a pulse at lri −1 gives event (0, pcslr)"
    let d = pulse_after(rt, d, 0)?;
    // event 5 1: "at lri 0, event (e, pcslr)"
    let d = pulse_after(rt, d, 4)?;
    // audit 5 3 1: "only if e < lri − rit": 1 is not below 5 − 60000
    let d = audit(rt, pulse_after(rt, d, 0)?)?;
    // ok, audit -1 3 1: "off sets lri to −1 and leaves the counters"
    let d = audit(rt, ask(rt, d, NEITHER)?)?;
    // audit -1 3 1: "While it is off, ticks change nothing."
    let d = audit(rt, pulse_after(rt, d, 9)?)?;
    // ok, audit -1 0 0: "another non-off one zeroes the counters and sets lri to −1"
    let d = audit(rt, ask(rt, d, ric(60000))?)?;
    // event 0 1: "a pulse at lri −1 gives event (0, pcslr)"
    pulse_after(rt, d, 0)
}

fn reports(rt: &impl Print, d: Detector) -> io::Result<Detector> {
    // ok, audit -1 0 0: "another non-off one zeroes the counters and sets lri to −1"
    let d = audit(rt, ask(rt, d, pr(2))?)?;
    // audit -1 1 1: "Each pulse adds 1 to both counters"; lri "leaves −1 only under ric"
    let d = audit(rt, pulse_after(rt, d, 3)?)?;
    // ok, audit -1 1 1: "The same request again changes nothing"
    let d = audit(rt, ask(rt, d, pr(2))?)?;
    // report, audit -1 2 0: "If a period rp is set and pcslr then equals rp, a report is given and pcslr becomes 0"
    audit(rt, pulse_after(rt, d, 0)?)
}

fn main(rt: HostRuntime) -> io::Result<()> {
    let d = refusals(&rt, Detector::fresh())?;
    let d = intervals(&rt, d)?;
    let d = silences(&rt, d)?;
    let d = requests(&rt, d)?;
    reports(&rt, d)?;
    Ok(())
}
