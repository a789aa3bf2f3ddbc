//! The parts of a line.

ghost use Rattle.std.specs.Prelude.{decimal};
ghost use Rattle.std.specs.Fmt.{signed_decimal};
ghost use Rattle.sig_terms.specs.Putting.{IsPut};
ghost use Rattle.sig_canon.specs.ScriptText.{after_blank};

use sig_terms::Term;
use std::alloc::AllocError;

/// Appends the bytes.
pub fn put(into: &mut Vec<u8>, text: &[u8]) -> Result<(), AllocError>
    ensures { IsPut into.old.items into.new.items text.now result }
{
    into.extend_from_slice(text)
}

/// Appends the integer in decimal.
pub fn put_int(into: &mut Vec<u8>, n: i64) -> Result<(), AllocError>
    ensures { IsPut into.old.items into.new.items (signed_decimal n) result }
{
    Term::Int(n).print(into)
}

/// Appends the number in decimal.
pub fn put_count(into: &mut Vec<u8>, n: u32) -> Result<(), AllocError>
    ensures { IsPut into.old.items into.new.items (decimal n) result }
{
    put_int(into, i64::from(n))
}

/// Appends a blank and the word.
pub fn put_word(into: &mut Vec<u8>, word: &[u8]) -> Result<(), AllocError>
    ensures { IsPut into.old.items into.new.items (after_blank word.now) result }
{
    put(into, b" ")?;
    put(into, word)
}
