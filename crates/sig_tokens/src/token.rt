ghost use Rattle.std.specs.Prelude.{
  ◌≡◌,
  ◌+◌,
  ◌<◌,
  ◌≤◌,
  length,
  drop,
  IfSome,
};
ghost use Rattle.sig_terms.specs.Words.{is_digit, is_name_byte, is_variable_byte, is_atom_byte};
ghost use Rattle.sig_tokens.specs.Tokens.{
  is_blank,
  sign_of,
  equals_at,
  greater_at,
  slash_at,
  guard_sign_at,
  sign_by,
  sign_front,
  front_run,
  short_word,
  process_at,
  minus_at,
  underscore_at,
  quoted_at,
  front_token,
  unquoted,
};
ghost use Rattle.sig_tokens.specs.Signs as signs;

use sig_lists::Sequence;
use sig_patterns::Op;
use sig_program::Version;
use sig_terms::bytes::{
    MOST_WORD_BYTES, follows_in_name, follows_in_variable, is_digit_byte, is_lower_byte,
    is_upper_byte, stands_in_atom,
};

/// A token that stands for itself. Comparison signs and parentheses are tokens in version 2 alone.
#[derive(Clone, Copy, PartialEq, Eq)]
pub enum Sign {
    /// `{`
    OpenBrace,
    /// `}`
    CloseBrace,
    /// `[`
    OpenBracket,
    /// `]`
    CloseBracket,
    /// `,`
    Comma,
    /// `|`
    Bar,
    /// `^`
    Caret,
    /// `=`
    Equals,
    /// `->`
    Arrow,
    /// `_`
    Underscore,
    /// `<`
    Less,
    /// `>`
    Greater,
    /// `=<`
    AtMost,
    /// `>=`
    AtLeast,
    /// `==`
    EqualTo,
    /// `/=`
    UnequalTo,
    /// `(`
    OpenParen,
    /// `)`
    CloseParen,
}

/// What a token is.
#[derive(Clone, Copy)]
pub enum TokenKind {
    /// A lower-case letter and what may follow it in a name.
    Name,
    /// An upper-case letter and what may follow it in a variable.
    Variable,
    /// Digits, with or without `-` before them.
    Integer,
    /// An atom between two `'`.
    Quoted,
    /// `@` and the name of a process.
    Process,
    /// Any other token.
    Sign(Sign),
}

impl TokenKind {
    /// Whether it is no sign.
    pub fn is_word(self) -> bool
        ensures { result ≡ signs.is_word self }
    {
        !matches!(self, TokenKind::Sign(_))
    }

    /// Whether it is this sign.
    pub fn is_sign(self, sign: Sign) -> bool
        ensures { result ≡ signs.is_sign sign self }
    {
        match self {
            TokenKind::Sign(own) => own == sign,
            _ => false,
        }
    }

    /// Whether it is the sign that ends a tuple or a list.
    pub fn closes(self, close: Sign) -> bool
        ensures { result ≡ signs.closes close self }
    {
        match (close, self) {
            (Sign::CloseBrace, TokenKind::Sign(Sign::CloseBrace)) => true,
            (Sign::CloseBracket, TokenKind::Sign(Sign::CloseBracket)) => true,
            _ => false,
        }
    }

    /// The comparison that it spells. `None` where it is no comparison sign.
    pub fn op(self) -> Option<Op>
        ensures { result ≡ signs.op_of self }
    {
        match self {
            TokenKind::Sign(Sign::Less) => Some(Op::Less),
            TokenKind::Sign(Sign::Greater) => Some(Op::Greater),
            TokenKind::Sign(Sign::AtMost) => Some(Op::AtMost),
            TokenKind::Sign(Sign::AtLeast) => Some(Op::AtLeast),
            TokenKind::Sign(Sign::EqualTo) => Some(Op::Equal),
            TokenKind::Sign(Sign::UnequalTo) => Some(Op::Unequal),
            _ => None,
        }
    }
}

/// A token: the bytes from `start` to below `end`.
#[derive(Clone, Copy)]
pub struct Token {
    pub kind: TokenKind,
    /// The place of its first byte in the line, from 0.
    pub start: usize,
    /// The place behind its last byte.
    pub end: usize,
}

/// The tokens of a line, from left to right.
pub type Tokens = Sequence<Token>;

/// The tokens of a line up to the first place at which no token stands.
#[derive(Drop)]
pub struct Cut {
    pub tokens: Tokens,
    /// The place at which none stands. `None` where they reach a comment or the end of the line.
    pub stop: Option<usize>,
}

/// Whether the byte is a space, a tab or a carriage return.
pub fn is_blank_byte(b: u8) -> bool
    ensures { result ≡ is_blank b }
{
    b == 32 || b == 9 || b == 13
}

fn sign_of_byte(b: u8) -> Option<Sign>
    ensures { result ≡ sign_of b }
{
    if b == b'{' {
        Some(Sign::OpenBrace)
    } else if b == b'}' {
        Some(Sign::CloseBrace)
    } else if b == b'[' {
        Some(Sign::OpenBracket)
    } else if b == b']' {
        Some(Sign::CloseBracket)
    } else if b == b',' {
        Some(Sign::Comma)
    } else if b == b'|' {
        Some(Sign::Bar)
    } else if b == b'^' {
        Some(Sign::Caret)
    } else {
        None
    }
}

/// What stands behind `=`.
fn equals_token(rest: &[u8]) -> Option<(TokenKind, usize)>
    ensures token { result ≡ equals_at rest.now }
    ensures within { IfSome result (λ t. (0 < t.1) × (t.1 ≤ length rest.now + 1)) }
{
    match rest {
        [b'<', ..] => Some((TokenKind::Sign(Sign::AtMost), 2)),
        [b'=', ..] => Some((TokenKind::Sign(Sign::EqualTo), 2)),
        _ => Some((TokenKind::Sign(Sign::Equals), 1)),
    }
}

/// What stands behind `>`.
fn greater_token(rest: &[u8]) -> Option<(TokenKind, usize)>
    ensures token { result ≡ greater_at rest.now }
    ensures within { IfSome result (λ t. (0 < t.1) × (t.1 ≤ length rest.now + 1)) }
{
    match rest {
        [b'=', ..] => Some((TokenKind::Sign(Sign::AtLeast), 2)),
        _ => Some((TokenKind::Sign(Sign::Greater), 1)),
    }
}

/// What stands behind `/`.
fn slash_token(rest: &[u8]) -> Option<(TokenKind, usize)>
    ensures token { result ≡ slash_at rest.now }
    ensures within { IfSome result (λ t. (0 < t.1) × (t.1 ≤ length rest.now + 1)) }
{
    match rest {
        [b'=', ..] => Some((TokenKind::Sign(Sign::UnequalTo), 2)),
        _ => None,
    }
}

fn guard_sign_token(b: u8, rest: &[u8]) -> Option<(TokenKind, usize)>
    ensures token { result ≡ guard_sign_at b rest.now }
    ensures within { IfSome result (λ t. (0 < t.1) × (t.1 ≤ length rest.now + 1)) }
{
    if b == b'=' {
        equals_token(rest)
    } else if b == b'<' {
        Some((TokenKind::Sign(Sign::Less), 1))
    } else if b == b'>' {
        greater_token(rest)
    } else if b == b'/' {
        slash_token(rest)
    } else if b == b'(' {
        Some((TokenKind::Sign(Sign::OpenParen), 1))
    } else if b == b')' {
        Some((TokenKind::Sign(Sign::CloseParen), 1))
    } else {
        None
    }
}

/// The signs of which version 1 has `=` alone.
fn sign_token_by(version: Version, b: u8, rest: &[u8]) -> Option<(TokenKind, usize)>
    ensures token { result ≡ sign_by version b rest.now }
    ensures within { IfSome result (λ t. (0 < t.1) × (t.1 ≤ length rest.now + 1)) }
{
    match version {
        Version::One if b == b'=' => Some((TokenKind::Sign(Sign::Equals), 1)),
        Version::One => None,
        Version::Two => guard_sign_token(b, rest),
    }
}

fn sign_token(version: Version, b: u8, rest: &[u8]) -> Option<(TokenKind, usize)>
    ensures token { result ≡ sign_front version b rest.now }
    ensures within { IfSome result (λ t. (0 < t.1) × (t.1 ≤ length rest.now + 1)) }
{
    match sign_of_byte(b) {
        Some(sign) => Some((TokenKind::Sign(sign), 1)),
        None => sign_token_by(version, b, rest),
    }
}

fn run_of_name(bytes: &[u8]) -> usize
    ensures run { result ≡ front_run is_name_byte bytes.now }
    ensures bound { result ≤ length bytes.now }
{
    bytes.iter().take_while(|b| follows_in_name(**b)).count()
}

fn run_of_variable(bytes: &[u8]) -> usize
    ensures run { result ≡ front_run is_variable_byte bytes.now }
    ensures bound { result ≤ length bytes.now }
{
    bytes
        .iter()
        .take_while(|b| follows_in_variable(**b))
        .count()
}

fn run_of_digits(bytes: &[u8]) -> usize
    ensures run { result ≡ front_run is_digit bytes.now }
    ensures bound { result ≤ length bytes.now }
{
    bytes.iter().take_while(|b| is_digit_byte(**b)).count()
}

fn run_of_atom(bytes: &[u8]) -> usize
    ensures run { result ≡ front_run is_atom_byte bytes.now }
    ensures bound { result ≤ length bytes.now }
{
    bytes.iter().take_while(|b| stands_in_atom(**b)).count()
}

/// The token of a word of `n` bytes with `around` bytes before and behind it.
fn short_token(kind: TokenKind, around: usize, n: usize) -> Option<(TokenKind, usize)>
    requires { around ≤ 2 }
    ensures token { result ≡ short_word kind around n }
    ensures len { IfSome result (λ t. t.1 ≡ around + n) }
{
    if n <= MOST_WORD_BYTES {
        Some((kind, around + n))
    } else {
        None
    }
}

fn process_token(rest: &[u8]) -> Option<(TokenKind, usize)>
    ensures token { result ≡ process_at rest.now }
    ensures within { IfSome result (λ t. (0 < t.1) × (t.1 ≤ length rest.now + 1)) }
{
    let (first, tail) = rest.split_first()?;
    if is_lower_byte(*first) {
        short_token(TokenKind::Process, 1, 1 + run_of_name(tail))
    } else {
        None
    }
}

fn minus_token(rest: &[u8]) -> Option<(TokenKind, usize)>
    ensures token { result ≡ minus_at rest.now }
    ensures within { IfSome result (λ t. (0 < t.1) × (t.1 ≤ length rest.now + 1)) }
{
    let (first, tail) = rest.split_first()?;
    if is_digit_byte(*first) {
        Some((TokenKind::Integer, 2 + run_of_digits(tail)))
    } else if *first == b'>' {
        Some((TokenKind::Sign(Sign::Arrow), 2))
    } else {
        None
    }
}

fn underscore_token(rest: &[u8]) -> Option<(TokenKind, usize)>
    ensures token { result ≡ underscore_at rest.now }
    ensures within { IfSome result (λ t. (0 < t.1) × (t.1 ≤ length rest.now + 1)) }
{
    match rest.split_first() {
        Some((first, _)) if follows_in_name(*first) => None,
        _ => Some((TokenKind::Sign(Sign::Underscore), 1)),
    }
}

fn quoted_token(rest: &[u8]) -> Option<(TokenKind, usize)>
    ensures token { result ≡ quoted_at rest.now }
    ensures within { IfSome result (λ t. (0 < t.1) × (t.1 ≤ length rest.now + 1)) }
{
    let n = run_of_atom(rest);
    let (first, _) = rest[n..].split_first()?;
    if *first == b'\'' {
        short_token(TokenKind::Quoted, 2, n)
    } else {
        None
    }
}

/// The token of this version at the front of the bytes, as long as possible: its kind and length.
pub fn token_at(version: Version, rest: &[u8]) -> Option<(TokenKind, usize)>
    ensures token { result ≡ front_token version rest.now }
    ensures within { IfSome result (λ t. (0 < t.1) × (t.1 ≤ length rest.now)) }
{
    let (first, tail) = rest.split_first()?;
    let b = *first;
    if is_lower_byte(b) {
        short_token(TokenKind::Name, 0, 1 + run_of_name(tail))
    } else if is_upper_byte(b) {
        short_token(TokenKind::Variable, 0, 1 + run_of_variable(tail))
    } else if is_digit_byte(b) {
        Some((TokenKind::Integer, 1 + run_of_digits(tail)))
    } else if b == b'@' {
        process_token(tail)
    } else if b == b'-' {
        minus_token(tail)
    } else if b == b'_' {
        underscore_token(tail)
    } else if b == b'\'' {
        quoted_token(tail)
    } else {
        sign_token(version, b, tail)
    }
}

/// What stands behind the first byte.
pub fn behind_first(word: &[u8]) -> &[u8]
    ensures { result.now ≡ drop 1 word.now }
{
    if word.is_empty() { word } else { &word[1..] }
}

/// The bytes between the quotes of a quoted atom.
pub fn unquoted(word: &[u8]) -> &[u8]
    ensures { result.now ≡ unquoted word.now }
{
    let rest = behind_first(word);
    let n = run_of_atom(rest);
    &rest[..n]
}
