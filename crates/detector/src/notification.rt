// What a tick gives: a report, or an event with its interval and count.
ghost use Rattle.std.specs.Prelude.{◌≡◌, ◌≤◌};
ghost use Rattle.detector.specs.Notice.{notice_of, ric_notice, notice_at, interval_of};

use crate::request::Request;

// What a tick gives.
#[derive(Clone, Copy, PartialEq, Eq, Debug)]
pub enum Notification {
    Report,
    Event { interval: u32, count: u32 },
}

// Under ric, the event of a tick, if it gives one. Both lri − rit, which may be negative, and lri + rit are taken in
// 64 bits.
fn ric_event(pulse: bool, lri: i32, rit: u32, e: u32, count: u32) -> Option<Notification>
    ensures notice { notice_of result ≡ ric_notice pulse lri rit e count }
    ensures bound { interval_of (notice_of result) ≤ e }
{
    let (last, threshold, now) = (i64::from(lri), i64::from(rit), i64::from(e));
    let interval = if pulse && lri < 0 {
        0
    } else if pulse && (lri == 0 || now < last - threshold) {
        e
    } else if !pulse && lri > 0 && now == last + threshold {
        0
    } else {
        return None;
    };
    Some(Notification::Event { interval, count })
}

// What a tick gives by the request that is on; the count is taken after the pulse was counted.
pub(crate) fn given(
    request: Request,
    pulse: bool,
    lri: i32,
    e: u32,
    count: u32,
) -> Option<Notification>
    ensures notice { notice_of result ≡ notice_at request pulse lri e count }
    ensures bound { interval_of (notice_of result) ≤ e }
{
    match request {
        Request::Pr { rp } if pulse && count == rp => Some(Notification::Report),
        Request::Ric { rit } => ric_event(pulse, lri, rit, e, count),
        _ => None,
    }
}
