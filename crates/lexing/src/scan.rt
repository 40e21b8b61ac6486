// Cutting a text into words: the longest runs of letters or of digits, and the signs, longest first.
ghost use Rattle.std.specs.Prelude.{◌≡◌, ℕ, Bool, ◌<◌, ◌≤◌, min, List, ◌∷◌, length};
ghost use Rattle.lexing.specs.Lexing.{is_letter, is_digit, separates, run, decimal, letter_token, letters_token, expression_word, sign_token, equals_next, mark_token, mark_size, token_at, size_at};

use text::{LARGEST_NUMBER, Register, Token};

// Every number above the largest that may stand is read as this one.
const ABOVE: u16 = LARGEST_NUMBER + 1;

fn letter(b: u8) -> bool
    ensures { result ≡ is_letter b }
{
    b.is_ascii_alphabetic()
}

fn digit(b: u8) -> bool
    ensures { result ≡ is_digit b }
{
    b.is_ascii_digit()
}

pub(crate) fn separator(b: u8) -> bool
    ensures { result ≡ separates b }
{
    matches!(b, b' ' | b'\n')
}

// How many bytes in front pass a test.
fn run<F: Fn(u8) -> bool>(bytes: &[u8], passes: F) -> usize
    requires { F.IsAlwaysCallable passes }
    ensures count { (p : ℕ → Bool) → ((b : ℕ) (r : Bool) → F.post passes b r → r ≡ p b) → result ≡ run p bytes.now }
    ensures within { result ≤ length bytes.now }
{
    bytes.iter().take_while(|b| passes(**b)).count()
}

// The value of a run of digits, however long.
fn value(run: &[u8]) -> u16
    ensures { result ≡ min 1001 (decimal run.now) }
{
    let mut n: u16 = 0;
    for d in run {
        n = (n * 10 + u16::from(d.saturating_sub(b'0'))).min(ABOVE);
    }
    n
}

// No From or TryFrom: it holds for a run of one letter alone.
fn letter_token(b: u8) -> Token
    ensures { result ≡ letter_token b }
{
    match b {
        b'a' => Token::Current(Register::A),
        b'b' => Token::Current(Register::B),
        b'c' => Token::Current(Register::C),
        b'd' => Token::Current(Register::D),
        b'e' => Token::Current(Register::E),
        b'f' => Token::Current(Register::F),
        b'A' => Token::Initial(Register::A),
        b'B' => Token::Initial(Register::B),
        b'C' => Token::Initial(Register::C),
        b'D' => Token::Initial(Register::D),
        b'E' => Token::Initial(Register::E),
        b'F' => Token::Initial(Register::F),
        _ => Token::Name,
    }
}

// The words of expressions, of statements and of sheets; every other run of letters is a name.
fn long_token(run: &[u8]) -> Token
    ensures { result ≡ expression_word run.now }
{
    match run {
        b"true" => Token::True,
        b"and" => Token::And,
        b"or" => Token::Or,
        b"nand" => Token::Nand,
        b"reg" => Token::Reg,
        b"sense" => Token::Sense,
        b"if" => Token::If,
        b"else" => Token::Else,
        b"while" => Token::While,
        b"break" => Token::Break,
        b"empty" => Token::Empty,
        b"rest" => Token::Rest,
        _ => Token::Name,
    }
}

fn letters_token(run: &[u8]) -> Token
    ensures { result ≡ letters_token run.now }
{
    match run {
        [b] => letter_token(*b),
        _ => long_token(run),
    }
}

fn sign_token(b: u8) -> Token
    ensures { result ≡ sign_token b }
{
    match b {
        b';' => Token::Semicolon,
        b'(' => Token::OpenParen,
        b')' => Token::CloseParen,
        b'{' => Token::OpenBrace,
        b'}' => Token::CloseBrace,
        b'[' => Token::OpenBracket,
        b']' => Token::CloseBracket,
        b'+' => Token::Plus,
        b'-' => Token::Minus,
        b':' => Token::Colon,
        b'?' => Token::Question,
        b',' => Token::Comma,
        b'|' => Token::Bar,
        b'*' => Token::Star,
        _ => Token::Stray,
    }
}

// Whether the next byte is `=`.
fn equals_next(bytes: &[u8]) -> bool
    ensures { result ≡ equals_next bytes.now }
{
    matches!(bytes, [b'=', ..])
}

// The word that begins with a byte that is no letter and no digit, and its length.
fn mark(b: u8, behind: &[u8]) -> (Token, usize)
    ensures token { result.0 ≡ mark_token b behind.now }
    ensures size { result.1 ≡ mark_size b behind.now }
{
    match (b, equals_next(behind)) {
        (b'<', true) => (Token::AtMost, 2),
        (b'<', false) => (Token::Less, 1),
        (b'=', true) => (Token::Equal, 2),
        (b'=', false) => (Token::Set, 1),
        _ => (sign_token(b), 1),
    }
}

// The word that the bytes begin with, and its length.
pub(crate) fn front(bytes: &[u8]) -> (Token, usize)
    requires { 0 < length bytes.now }
    ensures { (b : ℕ) (bs : List ℕ) → bytes.now ≡ b ∷ bs → (result.0 ≡ token_at b bs) × (result.1 ≡ size_at b bs) }
{
    let b = bytes[0];
    if letter(b) {
        let n = run(bytes, letter);
        return (letters_token(&bytes[0..n]), n);
    }
    if digit(b) {
        let n = run(bytes, digit);
        return (Token::Number(value(&bytes[0..n])), n);
    }
    mark(b, &bytes[1..])
}
