// What a burst part cancels.
ghost use Rattle.std.specs.Prelude.{◌≡◌};
ghost use Rattle.descriptor.specs.Cancelled.{cancelled_by};

use super::BurstPart;

// The pulses that a burst part cancels, of those owed.
pub fn cancelled_by(part: BurstPart, owed: u32) -> u32
    ensures { result ≡ cancelled_by part owed }
{
    match part {
        BurstPart::None => owed,
        BurstPart::Keep | BurstPart::Start { .. } => 0,
    }
}
