// The words of programs, sheets and monitors.
ghost use Rattle.std.specs.Prelude.{◌≡◌, ◌<◌};
ghost use Rattle.text.specs.Words.{register_index, kind, kind_number, allowed};

use crate::reading::Fault;
use model::Cause;

// The six registers of a moment, in the order of their values there.
#[derive(Clone, Copy, Debug, PartialEq, Eq)]
pub enum Register {
    A,
    B,
    C,
    D,
    E,
    F,
}

// What a word is, whatever its place.
#[derive(Clone, Copy, Debug, PartialEq, Eq)]
pub enum Token {
    // A run of digits, by its value; every value above 1,000 is 1,001.
    Number(u16),
    // A small letter a to f: the register's value now.
    Current(Register),
    // A capital letter A to F: the register's value at the start of the run.
    Initial(Register),
    True,
    And,
    Or,
    Nand,
    Reg,
    Sense,
    If,
    Else,
    While,
    Break,
    Empty,
    Rest,
    // Any other run of letters.
    Name,
    Semicolon,
    OpenParen,
    CloseParen,
    OpenBrace,
    CloseBrace,
    OpenBracket,
    CloseBracket,
    Less,
    AtMost,
    Equal,
    Set,
    Plus,
    Minus,
    Colon,
    Question,
    Comma,
    Bar,
    Star,
    // A byte that begins no word.
    Stray,
}

// What a word is but for its number or its register.
// A kind is told of every word, of numbers and registers too, so that a sign is found whatever it holds.
#[derive(Clone, Copy, Debug, PartialEq, Eq)]
pub enum Kind {
    Number,
    // A register's letter, small or capital.
    Letter,
    True,
    And,
    Or,
    Nand,
    Reg,
    Sense,
    If,
    Else,
    While,
    Break,
    Empty,
    Rest,
    Name,
    Semicolon,
    OpenParen,
    CloseParen,
    OpenBrace,
    CloseBrace,
    OpenBracket,
    CloseBracket,
    Less,
    AtMost,
    Equal,
    Set,
    Plus,
    Minus,
    Colon,
    Question,
    Comma,
    Bar,
    Star,
    Stray,
}

// A word of a text, with the place of its first byte.
#[derive(Clone, Copy, Debug, PartialEq, Eq)]
pub struct Word {
    pub token: Token,
    pub place: usize,
}

// Which registers may stand in an expression.
// No Option of the declared ones: its None would read as no register, where every one may stand.
#[derive(Clone, Copy, Debug, PartialEq, Eq)]
pub enum Scope {
    // In sheets and monitors: every register, now and at the start.
    Every,
    // In programs: the declared ones, now.
    Declared([bool; 6]),
}

impl Register {
    // The register's place among the six values of a moment.
    pub fn index(self) -> usize
        ensures value { result ≡ register_index self }
        ensures small { result < 6 }
    {
        self as usize
    }
}

impl Token {
    // The kind of the word: words of one kind are alike but for the number or the register.
    pub fn kind(self) -> Kind
        ensures { kind_number result ≡ kind self }
    {
        match self {
            Token::Number(_) => Kind::Number,
            Token::Current(_) | Token::Initial(_) => Kind::Letter,
            Token::True => Kind::True,
            Token::And => Kind::And,
            Token::Or => Kind::Or,
            Token::Nand => Kind::Nand,
            Token::Reg => Kind::Reg,
            Token::Sense => Kind::Sense,
            Token::If => Kind::If,
            Token::Else => Kind::Else,
            Token::While => Kind::While,
            Token::Break => Kind::Break,
            Token::Empty => Kind::Empty,
            Token::Rest => Kind::Rest,
            Token::Name => Kind::Name,
            Token::Semicolon => Kind::Semicolon,
            Token::OpenParen => Kind::OpenParen,
            Token::CloseParen => Kind::CloseParen,
            Token::OpenBrace => Kind::OpenBrace,
            Token::CloseBrace => Kind::CloseBrace,
            Token::OpenBracket => Kind::OpenBracket,
            Token::CloseBracket => Kind::CloseBracket,
            Token::Less => Kind::Less,
            Token::AtMost => Kind::AtMost,
            Token::Equal => Kind::Equal,
            Token::Set => Kind::Set,
            Token::Plus => Kind::Plus,
            Token::Minus => Kind::Minus,
            Token::Colon => Kind::Colon,
            Token::Question => Kind::Question,
            Token::Comma => Kind::Comma,
            Token::Bar => Kind::Bar,
            Token::Star => Kind::Star,
            Token::Stray => Kind::Stray,
        }
    }
}

impl Word {
    // What is wrong at this word.
    pub fn fault(self, cause: Cause) -> Fault
        ensures { result ≡ record { cause = cause; place = self.place } }
    {
        Fault {
            cause,
            place: self.place,
        }
    }
}

impl Scope {
    // Whether a register's letter may stand: its small letter where it is declared, any letter in sheets and monitors.
    pub fn allows(self, token: Token) -> bool
        ensures { result ≡ allowed self token }
    {
        match self {
            Scope::Every => true,
            Scope::Declared(declared) => {
                matches!(token, Token::Current(register) if declared[register.index()])
            }
        }
    }
}
