//! Rows of several widths, from a table: the numbers follow from the order in which the rows are given.

ghost use Rattle.std.specs.Prelude.{ℕ, ◌≡◌, All, IfOk, List, length};

use sig_search::Rows;
use std::alloc::{AllocError, Global};

// What stands in a row but at the place where it differs.
const ELSEWHERE: u32 = 7;

// How wide the rows are, the place at which alone they differ, how many are given, how many of these are different, and
// the difference of each to the one before it.
struct Row {
    width: usize,
    place: usize,
    given: u32,
    different: u32,
    step: u32,
}

static ROWS: [Row; 12] = [
    // rows without a thing are all one
    Row {
        width: 0,
        place: 0,
        given: 1,
        different: 1,
        step: 1,
    },
    Row {
        width: 0,
        place: 0,
        given: 20,
        different: 1,
        step: 1,
    },
    // one row, again and again
    Row {
        width: 5,
        place: 0,
        given: 20,
        different: 1,
        step: 1,
    },
    // of one thing: as many as a power of two, and one more
    Row {
        width: 1,
        place: 0,
        given: 8,
        different: 8,
        step: 1,
    },
    Row {
        width: 1,
        place: 0,
        given: 9,
        different: 9,
        step: 1,
    },
    Row {
        width: 1,
        place: 0,
        given: 200,
        different: 65,
        step: 3,
    },
    Row {
        width: 1,
        place: 0,
        given: 20000,
        different: 20000,
        step: 1,
    },
    // different in their first thing, in their last one, and in one between
    Row {
        width: 5,
        place: 0,
        given: 2000,
        different: 1000,
        step: 1,
    },
    Row {
        width: 5,
        place: 4,
        given: 2000,
        different: 1000,
        step: 1,
    },
    Row {
        width: 5,
        place: 2,
        given: 2000,
        different: 999,
        step: 7,
    },
    // many: in a row, and alike in their lower 16 bits
    Row {
        width: 2,
        place: 1,
        given: 40000,
        different: 20000,
        step: 1,
    },
    Row {
        width: 2,
        place: 1,
        given: 40000,
        different: 20000,
        step: 1 << 16,
    },
];

// The number of the row that is given at this place.
fn number_of(row: &Row, at: u32) -> u32 {
    at.checked_rem(row.different).unwrap_or(0)
}

// The row with this number.
fn things(alloc: Global, row: &Row, number: u32) -> Result<Vec<u32>, AllocError>
    ensures { IfOk result (λ v. length v.items ≡ row.now.width) }
{
    let mut things = vec![in alloc; ELSEWHERE; row.width]?;
    if row.place < things.len() {
        things[row.place] = number.wrapping_mul(row.step);
    }
    Ok(things)
}

// Whether the row that is given at this place gets its number.
fn is_numbered(alloc: Global, rows: &mut Rows<u32>, row: &Row, at: u32) -> Result<bool, AllocError>
    requires { All (λ (r : List ℕ). length r ≡ row.now.width) rows.old }
    ensures { All (λ (r : List ℕ). length r ≡ row.now.width) rows.new }
{
    let number = number_of(row, at);
    let things = things(alloc, row, number)?;
    let numbered = rows.number(&things);
    drop(things);
    Ok(numbered? == number as usize)
}

// Whether each row stands at its number, and none behind them.
fn has_all(alloc: Global, rows: &Rows<u32>, row: &Row) -> Result<bool, AllocError> {
    for number in 0..row.different {
        let things = things(alloc, row, number)?;
        if rows.get(number as usize) != Some(&things) {
            return Ok(false);
        }
    }
    Ok(rows.len() == row.different as usize && rows.get(rows.len()).is_none())
}

// Whether the rows, of which there is none yet, get the numbers that the table says, and stand there then.
fn are_numbered(alloc: Global, rows: &mut Rows<u32>, row: &Row) -> Result<bool, AllocError>
    requires { All (λ (r : List ℕ). length r ≡ row.now.width) rows.old }
{
    if rows.len() != 0 || rows.get(0).is_some() {
        return Ok(false);
    }
    for at in 0..row.given {
        if !is_numbered(alloc, rows, row, at)? {
            return Ok(false);
        }
    }
    has_all(alloc, rows, row)
}

// The same of new rows.
fn numbers_right(alloc: Global, row: &Row) -> Result<bool, AllocError> {
    let mut rows = Rows::new(alloc);
    let right = are_numbered(alloc, &mut rows, row);
    drop(rows);
    right
}

#[test]
fn rows_are_numbered_in_their_order(rt: HostRuntime) {
    for (place, row) in ROWS.iter().enumerate() {
        let right = numbers_right(rt.alloc(), row);
        assert!(rt; right == Ok(true), "{place}");
    }
}
