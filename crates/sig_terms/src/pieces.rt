//! Texts of several pieces.

ghost use Rattle.std.specs.Prelude.{◌≡◌, ◌++◌, OnOk, OnErr, take, length};
ghost use Rattle.std.specs.List.{flat_map};

use std::alloc::AllocError;

/// Appends the pieces, one behind the other. Where memory is refused, some of them may stand
/// behind what was there.
fn append_each(into: &mut Vec<u8>, pieces: &[&[u8]]) -> Result<(), AllocError>
    ensures text { OnOk result (into.new.items ≡ into.old.items ++ flat_map (λ piece. piece.now) pieces.now) }
    ensures front { OnErr result (take (length into.old.items) into.new.items ≡ into.old.items) }
{
    for piece in pieces {
        into.extend_from_slice(piece)?;
    }
    Ok(())
}

/// Appends the pieces, one behind the other. Where memory is refused, `into` is as before.
pub fn append_pieces(into: &mut Vec<u8>, pieces: &[&[u8]]) -> Result<(), AllocError>
    ensures text { OnOk result (into.new.items ≡ into.old.items ++ flat_map (λ piece. piece.now) pieces.now) }
    ensures err { OnErr result (into.new.items ≡ into.old.items) }
{
    let before = into.len();
    let appended = append_each(into, pieces);
    if appended.is_err() {
        into.truncate(before);
    }
    appended
}
