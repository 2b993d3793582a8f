// The places of a row that are marked in a word, a bit each.
ghost use Rattle.std.specs.Prelude.{◌≡◌};
ghost use Rattle.group.specs.Marks.{is_unmarked, with_mark};

// Whether a place that has a bit is not marked yet.
pub(crate) fn is_unmarked(marks: u64, place: u32) -> bool
    ensures { result ≡ is_unmarked marks place }
{
    place < 64 && (marks >> place) % 2 == 0
}

// With a place marked too.
pub(crate) fn with_mark(marks: u64, place: u32) -> u64
    ensures { result ≡ with_mark marks place }
{
    if place < 64 {
        marks | (1 << place)
    } else {
        marks
    }
}
