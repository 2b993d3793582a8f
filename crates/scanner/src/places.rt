// The places in the grammar, and where each piece leads.
ghost use Rattle.std.specs.Prelude.{◌≡◌};
ghost use Rattle.scanner.specs.Machine.{next_of, spaced_to};

use super::Token;

// What was read, and so what may come next.
#[derive(Clone, Copy, PartialEq, Eq, Debug)]
pub enum Place {
    Nothing,
    Begun,
    ToFirstSignal,
    ToSignal,
    ToName,
    Named,
    ToItem,
    ItemNamed,
    ToValue,
    ToNumber,
    ItemRead,
    NumberRead,
    SignalRead,
    Whole,
}

impl Place {
    // The place after a piece: none where it may not come.
    pub(crate) fn after(self, token: Token) -> Option<Place>
        ensures { result ≡ next_of self token }
    {
        let place = match (self, token) {
            (Place::Nothing, Token::Sg) => Place::Begun,
            (Place::Begun, Token::Opens) => Place::ToFirstSignal,
            (Place::ToFirstSignal | Place::ToSignal, Token::Amet) => Place::ToName,
            (Place::ToName, Token::Name(_)) => Place::Named,
            (Place::Named, Token::Opens) => Place::ToItem,
            (Place::ToItem, Token::Name(_)) => Place::ItemNamed,
            (Place::ToItem, Token::Ka) => Place::ItemRead,
            (Place::ItemNamed, Token::Equals) => Place::ToValue,
            (Place::ToValue, Token::Number(_)) => Place::ItemRead,
            (Place::ToValue, Token::From) => Place::ToNumber,
            (Place::ToNumber, Token::Number(_)) => Place::NumberRead,
            (Place::NumberRead, Token::Comma) => Place::ToNumber,
            (Place::NumberRead, Token::To) => Place::ItemRead,
            (Place::ItemRead, Token::Comma) => Place::ToItem,
            (Place::ItemRead, Token::Shuts) => Place::SignalRead,
            (Place::Named | Place::SignalRead, Token::Comma) => Place::ToSignal,
            (Place::ToFirstSignal | Place::Named | Place::SignalRead, Token::Shuts) => Place::Whole,
            _ => return None,
        };
        Some(place)
    }

    // The place after a blank: none follows the whole text.
    pub(crate) fn spaced(self) -> Option<Place>
        ensures { result ≡ spaced_to self }
    {
        match self {
            Place::Whole => None,
            place => Some(place),
        }
    }
}
