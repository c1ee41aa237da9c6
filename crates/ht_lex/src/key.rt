//! The reserved words and symbols, as the grammar tells them apart.

ghost use Rattle.std.specs.Prelude.{◌≡◌};
ghost use Rattle.ht_lex.specs.Constants.{constant_text};
ghost use Rattle.ht_lex.specs.Ordinals.{from_first as number_from_first};

use ht_values::{ChunkKind, PartKind};

/// A word of the language with a meaning of its own, or a symbol. Its other spellings are the same key.
#[derive(Clone, Copy, PartialEq, Eq, Debug)]
pub enum Key {
    LeftParen,
    RightParen,
    CommaSign,
    Plus,
    Minus,
    Star,
    Slash,
    Caret,
    Ampersand,
    DoubleAmpersand,
    Equal,
    NotEqual,
    Less,
    Greater,
    LessEqual,
    GreaterEqual,
    Add,
    After,
    And,
    Background,
    Backgrounds,
    Before,
    By,
    Card,
    Cards,
    Contains,
    Delete,
    Div,
    Divide,
    Do,
    Else,
    End,
    Exit,
    For,
    Forever,
    From,
    Function,
    Get,
    Global,
    Go,
    Id,
    If,
    In,
    Into,
    Is,
    Me,
    Mod,
    Multiply,
    Next,
    Not,
    Number,
    Of,
    On,
    Or,
    Pass,
    Previous,
    Put,
    Repeat,
    Return,
    Send,
    Set,
    Stack,
    Subtract,
    The,
    Then,
    There,
    This,
    To,
    Until,
    While,
    With,
    Piece(ChunkKind),
    Pieces(ChunkKind),
    Part(PartKind),
    Parts(PartKind),
    Ordinal(Ordinal),
    Constant(Constant),
}

#[derive(Clone, Copy, PartialEq, Eq, Debug)]
pub enum Ordinal {
    First,
    Second,
    Third,
    Fourth,
    Fifth,
    Sixth,
    Seventh,
    Eighth,
    Ninth,
    Tenth,
    Last,
}

impl Ordinal {
    /// Its number, from 1 to 10, however many there are; `None` of the last.
    pub fn from_first(self) -> Option<u8>
        ensures { result ≡ number_from_first self }
    {
        match self {
            Ordinal::First => Some(1),
            Ordinal::Second => Some(2),
            Ordinal::Third => Some(3),
            Ordinal::Fourth => Some(4),
            Ordinal::Fifth => Some(5),
            Ordinal::Sixth => Some(6),
            Ordinal::Seventh => Some(7),
            Ordinal::Eighth => Some(8),
            Ordinal::Ninth => Some(9),
            Ordinal::Tenth => Some(10),
            Ordinal::Last => None,
        }
    }
}

/// The constants but `return`, which is a key of its own.
#[derive(Clone, Copy, PartialEq, Eq, Debug)]
pub enum Constant {
    Empty,
    Quote,
    Space,
    Comma,
    Colon,
    Tab,
    LineFeed,
    FormFeed,
    True,
    False,
    Zero,
    One,
    Two,
    Three,
    Four,
    Five,
    Six,
    Seven,
    Eight,
    Nine,
    Ten,
}

impl Constant {
    /// The text that the constant stands for.
    pub fn bytes(self) -> &'static [u8]
        ensures { result.now ≡ constant_text self }
    {
        match self {
            Constant::Empty => b"",
            Constant::Quote => b"\"",
            Constant::Space => b" ",
            Constant::Comma => b",",
            Constant::Colon => b":",
            Constant::Tab => b"\t",
            Constant::LineFeed => b"\n",
            Constant::FormFeed => b"\x0C",
            Constant::True => b"true",
            Constant::False => b"false",
            Constant::Zero => b"0",
            Constant::One => b"1",
            Constant::Two => b"2",
            Constant::Three => b"3",
            Constant::Four => b"4",
            Constant::Five => b"5",
            Constant::Six => b"6",
            Constant::Seven => b"7",
            Constant::Eight => b"8",
            Constant::Nine => b"9",
            Constant::Ten => b"10",
        }
    }
}

/// What a token is.
#[derive(Clone, Copy, PartialEq, Eq, Debug)]
pub enum TokenKind {
    /// A word that isn't reserved.
    Name,
    /// Digits. Their value is their spelling.
    Number,
    /// Bytes in quotes.
    Quoted,
    /// A reserved word or a symbol.
    Key(Key),
    /// A return.
    Eol,
}
