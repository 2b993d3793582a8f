// The text that answers a command, and the text that answers an ask.
ghost use Rattle.std.specs.Prelude.{◌≡◌};
ghost use Rattle.printing.specs.Text.{answer_text, asked_text};

use super::Answer;
use super::text::{Text, pair};

// The line of an answer. Not inlined: written out in `meter`, it made a command take 1.4 times as long.
#[inline(never)]
pub fn answer_text(answer: Answer) -> Text
    ensures { result ≡ answer_text answer }
{
    let mut text = Text::new();
    match answer {
        Answer::Ok(cancelled) => text.put_around(b"ok ", cancelled, b"\n"),
        Answer::No(number) => text.put_around(b"no ", number, b"\n"),
        Answer::Bad => text.put(b"bad\n"),
    }
    text
}

// The line that answers an ask: an answer with a ticket.
pub fn asked_text(answer: Answer, ticket: u32) -> Text
    ensures { result ≡ asked_text answer ticket }
{
    match answer {
        Answer::Ok(cancelled) => pair(b"ok ", cancelled, ticket),
        Answer::No(number) => pair(b"no ", number, ticket),
        Answer::Bad => answer_text(answer),
    }
}
