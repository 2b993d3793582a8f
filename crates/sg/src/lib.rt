// A reader of the texts that controllers send: one pass, byte after byte.
#![tactic(auto)]

ghost use Rattle.std.specs.Prelude.{◌≡◌};
ghost use Rattle.sg.specs.Readings.{read_of};

use descriptor::Refusal;
use notes::Notes;
use outcomes::Reading;
use scanner::Scanner;

// What a text reads as. It is refused where the grammar does not have it, and then where its names or values are wrong.
#[tactic(auto, using(crate::proofs::Loop::answers))]
pub fn read(text: &[u8]) -> Result<Reading, Refusal>
    ensures { result ≡ read_of text.now }
{
    let mut scanner = Scanner::fresh();
    let mut notes = Notes::none();
    for &b in text {
        let turn = scanner.step(b).ok_or(Refusal::Grammar)?;
        if let Some(token) = turn.token {
            notes.note(scanner.place, token);
        }
        scanner = turn.scanner;
    }
    outcomes::answer(scanner.is_whole(), notes)
}
