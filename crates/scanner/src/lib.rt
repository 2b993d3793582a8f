// A text byte by byte: the place in the grammar, the piece that is being read, and what ended.
#![tactic(auto)]

ghost use Rattle.std.specs.Prelude.{◌≡◌};
ghost use Rattle.scanner.specs.Machine.{fresh_scanner, is_whole, closed_of, ended_in, turn_to, begin_of, letter_of, digit_of, blank_of, mark_of, last_of, turn_of};

mod letters;
mod places;

pub use places::Place;

// A piece of a text: a name by its code, a number by its value, or a mark.
// Stays: a name by its code, one number held at a top: it is read byte by byte and may have any length, with no heap.
#[derive(Clone, Copy)]
pub enum Token {
    Name(u64),
    Number(u64),
    Sg,
    Amet,
    Ka,
    Opens,
    Shuts,
    From,
    To,
    Comma,
    Equals,
}

// What is being read: nothing yet, no piece, SG or KA of which the first byte is read, a name by its code, or a number
// by its digits and its value.
#[derive(Clone, Copy)]
pub enum Mode {
    Fresh,
    Between,
    InSg,
    InKa,
    InName { code: u64 },
    InNumber { digits: u8, value: u64 },
}

// What is being read, and the place before it.
#[derive(Clone, Copy)]
pub struct Scanner {
    pub mode: Mode,
    pub place: Place,
}

// The scanner after a byte, and the piece that ended, if one did.
#[derive(Clone, Copy)]
pub struct Turn {
    pub scanner: Scanner,
    pub token: Option<Token>,
}

impl Turn {
    // To a mode and a place, with a piece that ended.
    fn to(token: Option<Token>, mode: Mode, place: Place) -> Turn
        ensures { result ≡ turn_to token mode place }
    {
        Turn {
            scanner: Scanner { mode, place },
            token,
        }
    }
}

impl Scanner {
    pub fn fresh() -> Scanner
        ensures { result ≡ fresh_scanner }
    {
        Scanner {
            mode: Mode::Fresh,
            place: Place::Nothing,
        }
    }

    // Whether all bytes are a text.
    pub fn is_whole(self) -> bool
        ensures { result ≡ is_whole self }
    {
        matches!(self.mode, Mode::Between) && matches!(self.place, Place::Whole)
    }

    // The place where the piece ends here, if it may.
    fn closed(self) -> Option<Place>
        ensures { result ≡ closed_of self }
    {
        match self.mode {
            Mode::InName { code } => self.place.after(Token::Name(code)),
            Mode::InNumber { value, .. } => self.place.after(Token::Number(value)),
            Mode::InSg | Mode::InKa => None,
            Mode::Fresh | Mode::Between => Some(self.place),
        }
    }

    // The name or number that ends here.
    fn ended(self) -> Option<Token>
        ensures { result ≡ ended_in self.mode }
    {
        match self.mode {
            Mode::InName { code } => Some(Token::Name(code)),
            Mode::InNumber { value, .. } => Some(Token::Number(value)),
            _ => None,
        }
    }

    // The first byte of a name, a number, SG or KA.
    fn begin(self, mode: Mode) -> Option<Turn>
        ensures { result ≡ begin_of self mode }
    {
        Some(Turn::to(self.ended(), mode, self.closed()?))
    }

    fn on_letter(self, b: u8) -> Option<Turn>
        ensures { result ≡ letter_of self b }
    {
        match self.mode {
            Mode::InName { code } => {
                let mode = Mode::InName {
                    code: letters::letter(code, b),
                };
                Some(Turn::to(None, mode, self.place))
            }
            _ => self.begin(Mode::InName {
                code: letters::letter(0, b),
            }),
        }
    }

    fn on_digit(self, b: u8) -> Option<Turn>
        ensures { result ≡ digit_of self b }
    {
        match self.mode {
            Mode::InNumber { digits, value } => {
                if digits >= 10 {
                    return None;
                }
                let mode = Mode::InNumber {
                    digits: digits + 1,
                    value: letters::digit(value, b),
                };
                Some(Turn::to(None, mode, self.place))
            }
            _ => self.begin(Mode::InNumber {
                digits: 1,
                value: letters::digit(0, b),
            }),
        }
    }

    // A blank: none stands before the text or after it.
    fn on_blank(self) -> Option<Turn>
        ensures { result ≡ blank_of self }
    {
        match self.mode {
            Mode::Fresh => None,
            _ => Some(Turn::to(self.ended(), Mode::Between, self.closed()?.spaced()?)),
        }
    }

    // A mark of one byte. It is told where no name and no number ends.
    fn on_mark(self, mark: Token) -> Option<Turn>
        ensures { result ≡ mark_of self mark }
    {
        let place = self.closed()?.after(mark)?;
        Some(Turn::to(self.ended().or(Some(mark)), Mode::Between, place))
    }

    // The last byte of SG, amet/ or KA, which is right where the bytes before are being read.
    fn on_last(self, right: bool, mark: Token) -> Option<Turn>
        ensures { result ≡ last_of self right mark }
    {
        if !right {
            return None;
        }
        Some(Turn::to(Some(mark), Mode::Between, self.place.after(mark)?))
    }

    // One byte more, or none: then no text begins so. A name or number out of place is met where it ends.
    #[tactic(auto, unfolding(crate::specs::Machine::turn_of))]
    pub fn step(self, b: u8) -> Option<Turn>
        ensures { result ≡ turn_of self b }
    {
        match b {
            b'a'..=b'z' => self.on_letter(b),
            b'0'..=b'9' => self.on_digit(b),
            b' ' => self.on_blank(),
            b'{' => self.on_mark(Token::Opens),
            b'}' => self.on_mark(Token::Shuts),
            b'[' => self.on_mark(Token::From),
            b']' => self.on_mark(Token::To),
            b',' => self.on_mark(Token::Comma),
            b'=' => self.on_mark(Token::Equals),
            b'/' => self.on_last(
                matches!(
                    self.mode,
                    Mode::InName {
                        code: letters::AMET
                    }
                ),
                Token::Amet,
            ),
            b'S' => self.begin(Mode::InSg),
            b'G' => self.on_last(matches!(self.mode, Mode::InSg), Token::Sg),
            b'K' => self.begin(Mode::InKa),
            b'A' => self.on_last(matches!(self.mode, Mode::InKa), Token::Ka),
            _ => None,
        }
    }
}
