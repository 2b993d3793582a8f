// One line of output for each answer.
// Stays: no Display, since these types are std's and detector's: each would need a wrapper here for its one format, or
// would stand in detector with words of this program.
use detector::Audited;
use detector::notification::Notification;
use detector::request::Answer;
use std::io;

// ok, or no and the number.
pub(crate) fn answer(rt: &impl Print, a: Answer) -> io::Result<()> {
    match a {
        Ok(()) => println!(rt; "ok"),
        Err(refusal) => println!(rt; "no {}", refusal.number()),
    }
}

// report, or event with its interval and count; no line for nothing.
pub(crate) fn notification(rt: &impl Print, n: Option<Notification>) -> io::Result<()> {
    match n {
        None => Ok(()),
        Some(Notification::Report) => println!(rt; "report"),
        Some(Notification::Event { interval, count }) => println!(rt; "event {interval} {count}"),
    }
}

// audit with lri, cpc and pcslr.
pub(crate) fn audit(rt: &impl Print, a: Audited) -> io::Result<()> {
    println!(rt; "audit {} {} {}", a.lri, a.cpc, a.pcslr)
}
