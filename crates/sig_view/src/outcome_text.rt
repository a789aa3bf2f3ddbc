//! The text of the outcomes in which runs of a script end.

ghost use Rattle.std.specs.Prelude.{◌≡◌, ◌++◌, IfOk, OnOk, codes, decimal, length};
ghost use Rattle.sig_record.specs.EndText.{ends_text};
ghost use Rattle.sig_view.specs.OutcomeText.{endings_text, extent_text, first_line, number_line};

use itoa::Buffer;
use sig_record::{Record, print_ends};
use std::alloc::{AllocError, Global};

/// Puts this word, the number and what stands behind it behind the text.
fn put_numbered(
    text: &mut Vec<u8>,
    word: &[u8],
    number: u64,
    behind: &[u8],
) -> Result<(), AllocError>
    ensures { OnOk result (text.new.items ≡ text.old.items ++ (word.now ++ decimal number ++ behind.now)) }
{
    let mut digits = Buffer::new();
    text.extend_from_slice(word)?;
    text.extend_from_slice(digits.format(number).as_bytes())?;
    text.extend_from_slice(behind)
}

/// The end of the first line: whether these are all outcomes.
fn extent(all: bool) -> &'static [u8]
    ensures { result.now ≡ extent_text all }
{
    if all { b" all\n" } else { b" more\n" }
}

/// Puts the line of the outcomes' count behind the text.
fn put_first(text: &mut Vec<u8>, count: u64, all: bool) -> Result<(), AllocError>
    ensures { OnOk result (text.new.items ≡ text.old.items ++ first_line count all) }
{
    put_numbered(text, b"outcomes ", count, extent(all))
}

/// Puts the outcome of this number, in which the run of the record ended, behind the text.
fn put_outcome(text: &mut Vec<u8>, number: u64, ending: &Record) -> Result<(), AllocError>
    ensures { OnOk result (text.new.items ≡ text.old.items ++ (number_line number ++ ends_text ending.now)) }
{
    put_numbered(text, b"outcome ", number, b"\n")?;
    print_ends(ending.reports(), text)
}

/// The text of the outcomes in which the runs of these records ended, numbered from 1, with the word
/// `all` or `more` in the first line.
pub(crate) fn endings_text(
    alloc: Global,
    endings: &[Record],
    all: bool,
) -> Result<Vec<u8>, AllocError>
    ensures { IfOk result (λ text. text.items ≡ endings_text endings.now all) }
{
    let mut text = Vec::new(alloc);
    put_first(&mut text, endings.len() as u64, all)?;
    for at in 0..endings.len() {
        put_outcome(&mut text, at as u64 + 1, &endings[at])?;
    }
    Ok(text)
}
