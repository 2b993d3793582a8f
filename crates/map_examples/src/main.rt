// Runs the published examples of H.248.26, 6.5.4, and prints each with its clause.
#![tactic(auto)]

use fractions::Parameters;
use pulse_map::Element;
use std::io;

// {pcx repx}{pcn repn}
fn components(pcx: u32, repx: u32, pcn: u32, repn: u32) -> Parameters {
    Parameters {
        pcn,
        pcx,
        repx,
        repn,
    }
}

// A number, or that it is refused.
fn print_count(rt: &impl Print, count: Option<u64>) -> io::Result<()> {
    match count {
        Some(n) => print!(rt; "{n}"),
        None => print!(rt; "refused"),
    }
}

// The pulses of the first k intervals, over which the n elements repeat.
fn print_intervals(rt: &impl Print, p: Parameters, n: u32, k: u32) -> io::Result<()> {
    if n == 0 {
        return Ok(());
    }
    for i in 0..k {
        match pulse_map::element_at(p.repx, p.repn, i % n) {
            Some(Element::X) => print!(rt; " {}", p.pcx)?,
            Some(Element::N) => print!(rt; " {}", p.pcn)?,
            None => print!(rt; " refused")?,
        }
    }
    Ok(())
}

// The clause, the components of n elements, the first k intervals and their pulses, and the X's of the map.
fn print_map(rt: &impl Print, clause: &str, p: Parameters, n: u32, k: u32) -> io::Result<()> {
    print!(rt;
        "{clause} {{{} {}}}{{{} {}}}:",
        p.pcx, p.repx, p.pcn, p.repn
    )?;
    print_intervals(rt, p, n, k)?;
    print!(rt; " (pulses ")?;
    print_count(rt, pulse_map::pulses_in(p, k))?;
    print!(rt; ", X's of the map ")?;
    print_count(rt, pulse_map::xs_in_prefix(p.repx, p.repn, n))?;
    println!(rt; ")")
}

// The same of a tariff of a/b pulses over n elements.
fn print_tariff(rt: &impl Print, clause: &str, a: u32, b: u32, n: u32, k: u32) -> io::Result<()> {
    match fractions::parameters_of(a, b, n) {
        Some(p) => print_map(rt, clause, p, n, k),
        None => println!(rt; "refused"),
    }
}

fn main(rt: HostRuntime) -> io::Result<()> {
    print_map(&rt, "6.5.4.1 example 1", components(3, 7, 2, 3), 10, 10)?;
    print_map(&rt, "6.5.4.1 example 2", components(3, 3, 2, 7), 10, 10)?;
    println!(&rt;
        "  (the document prints a fourth X as the last element; three are due, as in 6.5.4.3)"
    )?;
    print_map(&rt, "6.5.4.1 example 3", components(24, 2, 23, 5), 7, 7)?;
    print_tariff(&rt, "6.5.4.2, 25/3 over 10", 25, 3, 10, 10)?;
    print_tariff(&rt, "6.5.4.2, 25/3 over 100", 25, 3, 100, 100)?;
    print_tariff(&rt, "6.5.4.2, 1/20 over 10", 1, 20, 10, 10)?;
    print_tariff(&rt, "6.5.4.2, 1/20 over 100", 1, 20, 100, 100)?;
    print_map(
        &rt,
        "6.5.4.2.1, 3 intervals of 1200 seconds",
        components(1, 1, 0, 0),
        1,
        3,
    )?;
    println!(&rt; "  (the document prints 6000; the reciprocal of 0.00083333 is 1200)")?;
    print_tariff(&rt, "6.5.4.3, 7/3 over 10", 7, 3, 10, 10)?;
    print_tariff(&rt, "6.5.4.3, 7/3 over 7", 7, 3, 7, 7)?;
    print_tariff(&rt, "6.5.4.3, 43/10 over 10", 43, 10, 10, 10)?;
    print_tariff(&rt, "6.5.4.3, 43/10 over 10, 17 intervals", 43, 10, 10, 17)?;
    print_tariff(&rt, "6.5.4.4.1, window 1, 7/3 over 7", 7, 3, 7, 7)?;
    print_tariff(&rt, "6.5.4.4.1, window 2, 4/5 over 1", 4, 5, 1, 1)?;
    println!(&rt; "  (17 pulses; by_count writes the second window as one interval of 1 pulse)")?;
    print_tariff(&rt, "6.5.4.4.2, 7/3 over 7, 8 intervals", 7, 3, 7, 8)
}
