// What a detector is asked for: the events descriptor, the request that it makes, and the answer.
ghost use Rattle.std.specs.Prelude.{◌≡◌, MatchResult};
ghost use Rattle.detector.specs.Request.{requested_by, ok, no, detector_number, reply_to};

// The request that is on: no event, pr with its report period, or ric with its interval threshold.
// Stays: the paper calls off a request like the other two.
#[derive(Clone, Copy, PartialEq, Eq, Debug)]
pub enum Request {
    Off,
    Pr { rp: u32 },
    Ric { rit: u32 },
}

// The detector's part of an events descriptor: the events that it asks for.
#[derive(Clone, Copy, PartialEq, Eq, Debug)]
pub struct Events {
    // pr, with its rp.
    pub pr: Option<u32>,
    // ric, with its rit.
    pub ric: Option<u32>,
}

// Why a descriptor is refused.
#[derive(Clone, Copy, PartialEq, Eq, Debug)]
pub enum Refusal {
    // rp = 0, or rit over 60,000
    OutOfRange,
    // pr and ric together
    InvalidCombination,
}

// The answer to a descriptor.
pub type Answer = Result<(), Refusal>;

impl Refusal {
    // The number of the cause.
    pub fn number(self) -> u32
        ensures { result ≡ detector_number self }
    {
        match self {
            Refusal::OutOfRange => 10,
            Refusal::InvalidCombination => 459,
        }
    }
}

impl Events {
    // The request that a descriptor makes, or why it is refused: 459 before 10.
    pub(crate) fn request(self) -> Result<Request, Refusal>
        ensures { MatchResult result
            (λ request. (request ≡ requested_by self) × (reply_to self ≡ ok))
            (λ refusal. reply_to self ≡ no (detector_number refusal)) }
    {
        match (self.pr, self.ric) {
            (Some(_), Some(_)) => Err(Refusal::InvalidCombination),
            (Some(0), None) => Err(Refusal::OutOfRange),
            (Some(rp), None) => Ok(Request::Pr { rp }),
            (None, Some(rit)) if rit <= 60000 => Ok(Request::Ric { rit }),
            (None, Some(_)) => Err(Refusal::OutOfRange),
            (None, None) => Ok(Request::Off),
        }
    }
}
