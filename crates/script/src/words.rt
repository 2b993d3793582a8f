// The words of a line, one after the other.
ghost use Rattle.std.specs.Prelude.{◌≡◌, ◌==◌, not, position};
ghost use Rattle.script.specs.Words.{blank, words_of};
ghost use Rattle.script.specs.Runs.{past_blanks, past_first};
ghost use Rattle.script.specs.Readers.{first, rest, no_word, whole};
ghost use Rattle.script.specs.Told.{told};

// The place of the first byte that is no blank.
fn first_other(line: &[u8]) -> Option<usize>
    ensures { result ≡ position (λ b. not (b == blank)) line.now }
{
    line.iter().position(|b| *b != b' ')
}

// The place of the first blank.
fn first_blank(line: &[u8]) -> Option<usize>
    ensures { result ≡ position (λ b. b == blank) line.now }
{
    line.iter().position(|b| *b == b' ')
}

// What stands past the blanks that a line begins with.
pub(crate) fn past_blanks(line: &[u8]) -> &[u8]
    ensures { result.now ≡ past_blanks line.now }
{
    &line[first_other(line).unwrap_or(line.len())..]
}

// The first word of a line, empty where there is none, and what stands past it.
pub(crate) fn next_word(line: &[u8]) -> (&[u8], &[u8])
    ensures first { result.0.now ≡ first (words_of line.now) }
    ensures others { words_of result.1.now ≡ rest (words_of line.now) }
    ensures past { result.1.now ≡ past_first line.now }
{
    let line = past_blanks(line);
    line.split_at(first_blank(line).unwrap_or(line.len()))
}

// Whether no word is left.
pub fn ended(line: &[u8]) -> bool
    ensures { result ≡ no_word (words_of line.now) }
{
    past_blanks(line).is_empty()
}

// What was read, where no word is left.
pub(crate) fn whole<A>(read: Option<(A, &[u8])>) -> Option<A>
where
    A: Drop,
    ensures { result ≡ whole (told read.entry) }
{
    let (value, rest) = read?;
    ended(rest).then_some(value)
}
