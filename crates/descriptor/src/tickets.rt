// What a commit is turned down for before its descriptor is looked at.
ghost use Rattle.std.specs.Prelude.{◌≡◌};
ghost use Rattle.descriptor.specs.Refusals.{ruling, ticket_causes};

use super::{Refusal, Ruling};

// A ticket has to be the line's serial, and the serial must not be at its top.
#[tactic(auto, unfolding(crate::specs::Refusals::ruling))]
pub fn ticket_ruling(ticket: u32, serial: u32) -> Ruling
    ensures { result ≡ ruling (ticket_causes ticket serial) }
{
    if ticket != serial {
        return Err(Refusal::Ticket);
    }
    if serial == u32::MAX {
        return Err(Refusal::Serial);
    }
    Ok(())
}
