// The pulse detector of H.248.26, clause 7: its state, and the calls on it.
#![tactic(auto)]

ghost use Rattle.std.specs.Prelude.{◌≡◌, ◌≤◌};
ghost use Rattle.detector.specs.Values.{top_ticks, elapsed};
ghost use Rattle.detector.specs.Notice.{notice_of, interval_of};
ghost use Rattle.detector.specs.State.{fresh, changed_to, counted_of, notified};
ghost use Rattle.detector.specs.State.{request_of, requested_as, tick_of, ticked_as, audit_of};

use crate::notification::Notification;
use crate::request::{Answer, Events, Request};

pub mod notification; // notification.rt: what a tick gives
pub mod request; // request.rt: what is asked for

// The top of the ticks since the last pulse.
const TOP_TICKS: u32 = 1000000000;

// A detector: nothing in it grows without an end.
#[derive(Clone, Copy, PartialEq, Eq, Debug)]
pub struct Detector {
    // The request that is on.
    pub request: Request,
    // The last repetition interval: -1 no pulse, 0 armed, else the interval.
    // Stays: the paper names a signed number of 32 bits with these meanings.
    pub lri: i32,
    // The pulses detected, held.
    pub cpc: u32,
    // The pulses since the last report or event, held.
    pub pcslr: u32,
    // The ticks since the last pulse, held.
    pub since: u32,
}

// What a request hands back.
// Stays: a detector's calls hand it back with what they tell, as the line's do, for which the paper names that form.
#[derive(Clone, Copy, PartialEq, Eq, Debug)]
pub struct Requested {
    pub detector: Detector,
    pub answer: Answer,
}

// What a tick hands back.
#[derive(Clone, Copy, PartialEq, Eq, Debug)]
pub struct Ticked {
    pub detector: Detector,
    pub notification: Option<Notification>,
}

// What an audit hands back.
#[derive(Clone, Copy, PartialEq, Eq, Debug)]
pub struct Audited {
    pub detector: Detector,
    pub lri: i32,
    pub cpc: u32,
    pub pcslr: u32,
}

// The ticks from the last pulse to this tick, held.
fn elapsed(since: u32) -> u32
    ensures { result ≡ elapsed since }
{
    since.saturating_add(1).min(TOP_TICKS)
}

impl Detector {
    // Off, lri -1, the counters 0; no pulse was seen, so that the ticks since the last are at their top.
    pub fn fresh() -> Detector
        ensures { result ≡ fresh }
    {
        Detector {
            request: Request::Off,
            lri: -1,
            cpc: 0,
            pcslr: 0,
            since: TOP_TICKS,
        }
    }

    // The detector with a request that is accepted.
    fn changed(self, request: Request) -> Detector
        ensures { result ≡ changed_to request self }
    {
        match request {
            _ if request == self.request => self,
            Request::Off => Detector {
                request,
                lri: -1,
                ..self
            },
            _ => Detector {
                request,
                since: self.since,
                ..Detector::fresh()
            },
        }
    }

    // An events descriptor: accepted, or refused and the detector left as it was.
    pub fn request(self, events: Events) -> Requested
        ensures { requested_as result ≡ request_of self events }
    {
        match events.request() {
            Ok(request) => Requested {
                detector: self.changed(request),
                answer: Ok(()),
            },
            Err(refusal) => Requested {
                detector: self,
                answer: Err(refusal),
            },
        }
    }

    // The detector once a tick is counted, with or without a pulse.
    fn counted(self, pulse: bool) -> Detector
        ensures { result ≡ counted_of pulse self }
    {
        if self.request == Request::Off {
            self
        } else if pulse {
            Detector {
                cpc: self.cpc.saturating_add(1),
                pcslr: self.pcslr.saturating_add(1),
                since: 0,
                ..self
            }
        } else {
            Detector {
                since: elapsed(self.since),
                ..self
            }
        }
    }

    // The detector after what a tick gives.
    fn notified(self, notification: Option<Notification>) -> Detector
        requires { interval_of (notice_of notification) ≤ top_ticks }
        ensures { result ≡ notified self (notice_of notification) }
    {
        match notification {
            None => self,
            Some(Notification::Report) => Detector { pcslr: 0, ..self },
            Some(Notification::Event { interval, .. }) => Detector {
                lri: interval as i32,
                pcslr: 0,
                ..self
            },
        }
    }

    // One tick, with or without a pulse.
    pub fn tick(self, pulse: bool) -> Ticked
        ensures { ticked_as result ≡ tick_of self pulse }
    {
        let counted = self.counted(pulse);
        let e = elapsed(self.since);
        let notification = notification::given(self.request, pulse, self.lri, e, counted.pcslr);
        Ticked {
            detector: counted.notified(notification),
            notification,
        }
    }

    // lri and both counters.
    pub fn audit(self) -> Audited
        ensures { result ≡ audit_of self }
    {
        Audited {
            detector: self,
            lri: self.lri,
            cpc: self.cpc,
            pcslr: self.pcslr,
        }
    }
}
