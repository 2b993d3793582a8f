// Numbers, in decimal digits.
ghost use Rattle.std.specs.Prelude.{◌≡◌, IfSome};
ghost use Rattle.script.specs.Words.{words_of};
ghost use Rattle.script.specs.Numbers.{number_of};
ghost use Rattle.script.specs.Runs.{past_first};
ghost use Rattle.script.specs.Readers.{number};
ghost use Rattle.script.specs.Told.{told};

use super::words::next_word;

// The number that a word is, if it is one.
pub(crate) fn number_in(word: &[u8]) -> Option<u32>
    ensures { result ≡ number_of word.now }
{
    if word.is_empty() {
        return None;
    }
    let mut value: u64 = 0;
    for &b in word {
        if !b.is_ascii_digit() {
            return None;
        }
        value = 10 * value + u64::from(b - b'0');
        if value > 4294967295 {
            return None;
        }
    }
    Some(value as u32)
}

// Reads a number.
pub fn next_number(line: &[u8]) -> Option<(u32, &[u8])>
    ensures read { told result ≡ number (words_of line.now) }
    ensures past { IfSome result (λ r. r.1.now ≡ past_first line.now) }
{
    let (word, rest) = next_word(line);
    Some((number_in(word)?, rest))
}
