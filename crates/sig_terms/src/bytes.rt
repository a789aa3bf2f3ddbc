//! Tests of bytes: which of them make names, variables and atoms.

ghost use Rattle.std.specs.Prelude.{◌≡◌};
ghost use Rattle.std.specs.List.{list_all};
ghost use Rattle.std.specs.Str.{bytes_eq};
ghost use Rattle.sig_terms.specs.Words.{
  is_lower,
  is_upper,
  is_digit,
  is_variable_byte,
  is_name_byte,
  is_atom_byte,
  is_name,
  is_variable,
  is_token,
  is_atom,
};

/// The most bytes of a name, a variable or an atom.
pub const MOST_WORD_BYTES: usize = 255;

/// Whether the byte is a lower-case letter of ASCII.
pub fn is_lower_byte(b: u8) -> bool
    ensures { result ≡ is_lower b }
{
    97 <= b && b <= 122
}

/// Whether the byte is an upper-case letter of ASCII.
pub fn is_upper_byte(b: u8) -> bool
    ensures { result ≡ is_upper b }
{
    65 <= b && b <= 90
}

/// Whether the byte is a digit of ASCII.
pub fn is_digit_byte(b: u8) -> bool
    ensures { result ≡ is_digit b }
{
    48 <= b && b <= 57
}

/// Whether the byte may follow in a variable: a letter, a digit or `_`.
pub fn follows_in_variable(b: u8) -> bool
    ensures { result ≡ is_variable_byte b }
{
    is_lower_byte(b) || is_upper_byte(b) || is_digit_byte(b) || b == b'_'
}

/// Whether the byte may follow in a name: besides, `@`.
pub fn follows_in_name(b: u8) -> bool
    ensures { result ≡ is_name_byte b }
{
    follows_in_variable(b) || b == b'@'
}

/// Whether the byte may stand in an atom: printable, and neither `'` nor `\`.
pub fn stands_in_atom(b: u8) -> bool
    ensures { result ≡ is_atom_byte b }
{
    32 <= b && b <= 126 && !(b == b'\'') && !(b == b'\\')
}

fn all_follow_in_name(bytes: &[u8]) -> bool
    ensures { result ≡ list_all is_name_byte bytes.now }
{
    bytes.iter().all(|b| follows_in_name(*b))
}

fn all_follow_in_variable(bytes: &[u8]) -> bool
    ensures { result ≡ list_all is_variable_byte bytes.now }
{
    bytes.iter().all(|b| follows_in_variable(*b))
}

fn all_stand_in_atom(bytes: &[u8]) -> bool
    ensures { result ≡ list_all is_atom_byte bytes.now }
{
    bytes.iter().all(|b| stands_in_atom(*b))
}

/// Whether the bytes are a name of any length.
pub fn spells_name(bytes: &[u8]) -> bool
    ensures { result ≡ is_name bytes.now }
{
    match bytes {
        [] => false,
        [first, rest @ ..] => is_lower_byte(*first) && all_follow_in_name(rest),
    }
}

/// Whether the bytes are a variable of any length.
pub fn spells_variable(bytes: &[u8]) -> bool
    ensures { result ≡ is_variable bytes.now }
{
    match bytes {
        [] => false,
        [first, rest @ ..] => is_upper_byte(*first) && all_follow_in_variable(rest),
    }
}

/// Whether the bytes are a name token or a variable token: a name or a variable of at most
/// [`MOST_WORD_BYTES`] bytes.
pub fn spells_token(bytes: &[u8]) -> bool
    ensures { result ≡ is_token bytes.now }
{
    bytes.len() <= MOST_WORD_BYTES && (spells_name(bytes) || spells_variable(bytes))
}

/// Whether the bytes are those of an atom: at most [`MOST_WORD_BYTES`], each of which
/// may stand in one.
pub fn spells_atom(bytes: &[u8]) -> bool
    ensures { result ≡ is_atom bytes.now }
{
    bytes.len() <= MOST_WORD_BYTES && all_stand_in_atom(bytes)
}

/// Whether the two have the same bytes in the same order.
pub fn equal_bytes(a: &[u8], b: &[u8]) -> bool
    ensures { result ≡ bytes_eq a.now b.now }
{
    a == b
}
