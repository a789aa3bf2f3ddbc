ghost use Rattle.std.specs.Prelude.{◌≡◌, ◌<◌, None, Some};
ghost use Rattle.sig_cells.specs.declared.neighbour.TheConstants.{MOST_CELLS};

use std::marker::Model;

/// How many cells a list has at most: each has a number of its own in 32 bits, and one is for none.
pub const MOST_CELLS: usize = 4_294_967_295;

/// The key of a neighbouring cell, or none, in 32 bits: 0 for none, and else the key and one.
#[derive(Clone, Copy)]
pub struct Neighbour(u32);

impl Model for Neighbour {
    ghost use Rattle.std.specs.Prelude.{ℕ, Option};
    ghost use Rattle.std.specs.Coded.{coded_ℕ, coded_option};

    ghost Value = { Option ℕ };

    ghost coded = { coded_option coded_ℕ };

    ghost use Rattle.sig_cells.specs.Keys.{key_in, number_of, number_back};

    ghost view = { λ n. key_in n.0 };

    ghost inverse = { λ key. record { 0 = number_of key } };

    ghost inverse_ok = { λ n h i. record { 0 = number_back n.0 i } };
}

impl Neighbour {
    /// No cell.
    pub(crate) fn none() -> Neighbour
        ensures { result ≡ None }
    {
        Neighbour(0)
    }

    /// The cell of the key.
    pub(crate) fn at(key: usize) -> Neighbour
        requires { key < MOST_CELLS }
        ensures { result ≡ Some key }
    {
        Neighbour(key as u32 + 1)
    }

    /// Its key.
    pub fn key(self) -> Option<usize>
        ensures { result ≡ self }
    {
        match self.0 {
            0 => None,
            number => Some(number as usize - 1),
        }
    }
}
