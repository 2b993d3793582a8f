// Asking what a descriptor would get, and committing it with the ticket that asking gave.
ghost use Rattle.std.specs.Prelude.{◌≡◌};
ghost use Rattle.line.specs.Lines.{read_answer, meant_by, ask_of, commit_of};

use super::{Answered, Asked, Line};
use descriptor::Descriptor;

impl Line {
    // A commit of what would be answered so without a ticket. Where it is turned down, the line is as it was.
    #[tactic(auto, unfolding(crate::specs::Lines::commit_of))]
    fn committing(self, ticket: u32, given: Answered) -> Answered
        ensures { result ≡ commit_of self ticket given }
    {
        match descriptor::ticket_ruling(ticket, self.serial) {
            Err(refusal) => self.refusing(refusal),
            Ok(()) => given,
        }
    }

    // Asks what a descriptor would get: what a commit with the serial would be answered, and the serial as its ticket.
    // The line is as it was.
    #[tactic(auto, unfolding(crate::specs::Lines::ask_of))]
    pub fn ask(self, given: Descriptor) -> Asked
        ensures { result ≡ ask_of self (read_answer self (meant_by given.entry)) }
    {
        let committed = self.commit(self.serial, given);
        Asked {
            line: self,
            verdict: committed.verdict,
            ticket: self.serial,
        }
    }

    // Commits a descriptor with a ticket.
    pub fn commit(self, ticket: u32, given: Descriptor) -> Answered
        ensures { result ≡ commit_of self ticket (read_answer self (meant_by given.entry)) }
    {
        self.committing(ticket, self.describe(given))
    }
}
