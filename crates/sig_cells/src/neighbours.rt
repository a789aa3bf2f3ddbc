//! What changes among the cells of a slab when one comes or goes.

ghost use Rattle.std.specs.Prelude.{◌≡◌, ◌≤◌, OnOk, OnErr};
ghost use Rattle.std.specs.Option.{option_map_or};
ghost use Rattle.slab.specs.Slab.{HasRoomFor, slab_len};
ghost use Rattle.sig_cells.specs.Keys.{room_for};
ghost use Rattle.sig_cells.specs.InSlab.{Changes, with_after, with_before};
ghost use Rattle.sig_cells.specs.declared.neighbour.TheConstants.{MOST_CELLS};

use crate::cell::Cell;
use crate::neighbour::{MOST_CELLS, Neighbour};
use slab::Slab;
use std::alloc::AllocError;

/// Makes room for one more cell, whose key fits 32 bits. The error is want of memory, or that such keys may
/// be used up.
pub fn make_room<T>(slab: &mut Slab<Cell<T>>) -> Result<(), AllocError>
    ensures ok { OnOk result (HasRoomFor slab.new 1 × (slab.new.capacity ≤ MOST_CELLS)) }
    ensures err { OnErr result (room_for slab.old.capacity (slab_len slab.old) ≡ 0) }
    ensures more { room_for slab.old.capacity (slab_len slab.old) ≤ room_for slab.new.capacity (slab_len slab.new) }
    ensures had_room { 1 ≤ room_for slab.old.capacity (slab_len slab.old) → slab.new ≡ slab.old }
    ensures slots { slab.new.slots ≡ slab.old.slots }
{
    slab.reserve(1)?;
    if slab.capacity() > MOST_CELLS {
        return Err(AllocError);
    }
    Ok(())
}

/// Lets another cell stand behind that of the key, where there is a key.
pub fn set_after<T>(slab: &mut Slab<Cell<T>>, key: Neighbour, after: Neighbour)
    ensures { Changes slab.old slab.new key (with_after after) }
{
    if let Some(key) = key.key() {
        if let Some(cell) = slab.get_mut(key) {
            cell.after = after;
        }
    }
}

/// Lets another cell stand before that of the key, where there is a key.
pub fn set_before<T>(slab: &mut Slab<Cell<T>>, key: Neighbour, before: Neighbour)
    ensures { Changes slab.old slab.new key (with_before before) }
{
    if let Some(key) = key.key() {
        if let Some(cell) = slab.get_mut(key) {
            cell.before = before;
        }
    }
}

/// An end of the list, when a cell comes or goes there: it stays where that cell has a neighbour on the
/// side of the end, and else is the other cell.
pub fn new_end(neighbour: Neighbour, end: Neighbour, other: Neighbour) -> Neighbour
    ensures { result ≡ option_map_or (λ _. end) neighbour other }
{
    match neighbour.key() {
        Some(_) => end,
        None => other,
    }
}
