// What a text reads as, in words: the number of a refusal, or the tariff part and the burst part.
use descriptor::{BurstPart, TariffPart};
use itoa::Buffer;
use outcomes::{Reading, slots};
use outlet::Outlet;
use std::io;
use std::io::{Stdout, Write};
use tariff::Em;

// Puts a number.
fn put_number(out: &mut Outlet<Stdout>, n: u32) -> io::Result<()> {
    out.write_all(Buffer::new().format(n).as_bytes())
}

// Puts a phase list in brackets. One that is over eight long is too long for a tariff, and not written out.
fn put_list(out: &mut Outlet<Stdout>, list: &[u32]) -> io::Result<()> {
    if list.len() > 8 {
        return out.write_all(b" [long]");
    }
    out.write_all(b" [")?;
    for (i, value) in list.iter().enumerate() {
        if i > 0 {
            out.write_all(b",")?;
        }
        put_number(out, *value)?;
    }
    out.write_all(b"]")
}

// Puts a phased tariff: its seven lists.
fn put_phases(out: &mut Outlet<Stdout>, reading: &Reading) -> io::Result<()> {
    out.write_all(b"ph")?;
    let values = &reading.values[..];
    for list in &values[slots::PRI..slots::UNKNOWN] {
        put_list(out, list.as_slice())?;
    }
    Ok(())
}

// Puts the tariff part.
// Stays: no Display, since this program alone prints these words. A Display would stand in descriptor, with a contract
// for them, or on a wrapper made for one call, and the phased part of a text has its lists beside it.
fn put_tariff(out: &mut Outlet<Stdout>, reading: &Reading) -> io::Result<()> {
    match reading.tariff {
        TariffPart::None => out.write_all(b"none"),
        TariffPart::Keep => out.write_all(b"keep"),
        TariffPart::Rate { interval } => write!(out, "rate {interval}"),
        TariffPart::Em(Em { count, period }) => write!(out, "em {count} {period}"),
        TariffPart::Phased => put_phases(out, reading),
    }
}

// Puts the burst part.
// Stays: no Display, as above.
fn put_burst(out: &mut Outlet<Stdout>, part: BurstPart) -> io::Result<()> {
    match part {
        BurstPart::None => out.write_all(b" none"),
        BurstPart::Keep => out.write_all(b" keep"),
        BurstPart::Start { pulses, interval } => write!(out, " burst {pulses} {interval}"),
    }
}

// Puts what a text reads as, and a line feed: the number of its refusal, or its parts.
pub(crate) fn put_reading(out: &mut Outlet<Stdout>, text: &[u8]) -> io::Result<()> {
    match sg::read(text) {
        Ok(reading) => {
            put_tariff(out, &reading)?;
            put_burst(out, reading.burst)?;
        }
        Err(why) => put_number(out, why.number())?,
    }
    out.write_all(b"\n")
}
