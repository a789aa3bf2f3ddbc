//! What tests of several calls share.

use sig_terms::Term;
use std::alloc::{AllocError, Global};
use std::process::Abort;
use std::slice;

/// The last digit of the number.
pub(crate) fn digit(number: u64) -> u8 {
    b'0' + (number % 10) as u8
}

/// The integer that the term is.
pub(crate) fn int(term: &Term) -> Option<i64> {
    match term {
        Term::Int(number) => Some(*number),
        _ => None,
    }
}

/// The next call of a text in which a call is written as a sign and a digit, with a blank between two calls:
/// its sign, and the number that is its digit.
pub(crate) fn next_call(calls: &mut slice::Iter<'_, u8>) -> Option<(u8, u8)> {
    let sign = *calls.next()?;
    let digit = *calls.next()?;
    let _blank = calls.next();
    Some((sign, digit.wrapping_sub(b'0')))
}

/// Ends the test unless the answer is yes.
pub(crate) fn passes<R: Abort>(rt: &R, answer: Result<bool, AllocError>) {
    assert!(rt; answer == Ok(true));
}

/// Ends the test where something goes another way, and tells the place of the first that does.
pub(crate) fn none_is_other<R: Abort>(rt: &R, first_other: Result<Option<usize>, AllocError>) {
    assert_eq!(rt; first_other, Ok(None));
}

/// A row of a table.
pub(crate) trait Row {
    /// Whether what the row says holds.
    fn holds(&self, alloc: Global) -> Result<bool, AllocError>;
}

/// The place of the first row that doesn't hold.
fn first_broken<T: Row>(alloc: Global, rows: &[T]) -> Result<Option<usize>, AllocError> {
    for (place, row) in rows.iter().enumerate() {
        if !row.holds(alloc)? {
            return Ok(Some(place));
        }
    }
    Ok(None)
}

/// Ends the test where a row doesn't hold, and names the place of the first that doesn't.
pub(crate) fn each_row_holds<R: Abort, T: Row>(rt: &R, alloc: Global, rows: &[T]) {
    none_is_other(rt, first_broken(alloc, rows));
}
