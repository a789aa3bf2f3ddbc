//! Pools of many things, from a table: the numbers follow from the order in which the things are given.

ghost use Rattle.std.specs.Prelude.{ℕ};
ghost use Rattle.std.specs.Hash as fed;

use sig_search::{Plain, Pool};
use std::alloc::{AllocError, Global};
use std::hash::Hasher;

// A thing, and what a hasher is fed of it.
#[derive(Drop)]
struct Marked {
    value: u32,
    mark: u32,
}

impl Plain for Marked {
    ghost Sight = { ℕ × ℕ };

    ghost shown = { λ m. (m.value, m.mark) };

    ghost fed = { λ m. fed.u32 m.1 };

    fn same(&self, other: &Marked) -> bool {
        self.value == other.value && self.mark == other.mark
    }

    fn hash<H: Hasher>(&self, hasher: &mut H) {
        hasher.write_u32(self.mark);
    }
}

// How many things there are, the difference of each to the one before it, and how many numbers they feed.
struct Row {
    count: u32,
    step: u32,
    marks: u32,
}

static ROWS: [Row; 9] = [
    // one number for all, two, and a few
    Row {
        count: 600,
        step: 1,
        marks: 1,
    },
    Row {
        count: 600,
        step: 1,
        marks: 2,
    },
    Row {
        count: 1000,
        step: 7,
        marks: 48,
    },
    // as many as a power of two, and one more
    Row {
        count: 8,
        step: 1,
        marks: u32::MAX,
    },
    Row {
        count: 9,
        step: 1,
        marks: u32::MAX,
    },
    Row {
        count: 64,
        step: 3,
        marks: u32::MAX,
    },
    Row {
        count: 65,
        step: 3,
        marks: u32::MAX,
    },
    // many, each with a number of its own: in a row, and alike in their lower 16 bits
    Row {
        count: 20000,
        step: 1,
        marks: u32::MAX,
    },
    Row {
        count: 20000,
        step: 1 << 16,
        marks: u32::MAX,
    },
];

fn thing(row: &Row, at: u32) -> Marked {
    let value = at.wrapping_mul(row.step);
    Marked {
        value,
        mark: value.checked_rem(row.marks).unwrap_or(0),
    }
}

// Whether each thing gets its place among them as its number.
fn gives_places(pool: &mut Pool<Marked>, row: &Row) -> Result<bool, AllocError> {
    for at in 0..row.count {
        if pool.number(thing(row, at))? != at as usize {
            return Ok(false);
        }
    }
    Ok(true)
}

// Whether each thing stands at its place, and none behind them.
fn has_all(pool: &Pool<Marked>, row: &Row) -> bool {
    for at in 0..row.count {
        let Some(found) = pool.get(at as usize) else {
            return false;
        };
        if found.value != at.wrapping_mul(row.step) {
            return false;
        }
    }
    pool.len() == row.count as usize && pool.get(pool.len()).is_none()
}

// Whether the things get the numbers that the row says, at first and again, and stand there then.
fn numbers_right(alloc: Global, row: &Row) -> Result<bool, AllocError> {
    let mut pool = Pool::new(alloc);
    let first = gives_places(&mut pool, row)?;
    let again = gives_places(&mut pool, row)?;
    Ok(first && again && has_all(&pool, row))
}

#[test]
fn pools_number_things_in_their_order(rt: HostRuntime) {
    for (place, row) in ROWS.iter().enumerate() {
        let right = numbers_right(rt.alloc(), row);
        assert!(rt; right == Ok(true), "{place}");
    }
}
