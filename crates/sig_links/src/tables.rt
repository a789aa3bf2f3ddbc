//! Sorted vectors as tables: the peers of active links, and the awaited ids by their peers.

ghost use Rattle.std.specs.Prelude.{◌≡◌, ◌≤◌, not, if◌then◌else◌, IfOk, OnOk, OnErr, MatchResult, vec_len, vec_capacity, length, drop};
ghost use Rattle.std.specs.FinMap as map;
ghost use Rattle.std.specs.List.Sorted.{IsSearchInRange};
ghost use Rattle.sig_links.specs.NextActive.{peers_above};
ghost use Rattle.sig_links.specs.Places.{IsAt, IsGapFor};
ghost use Rattle.sig_links.specs.Tables.{room_of, marked, peers_of, ids_of, IsInOrder};

use sig_terms::Pid;
use std::alloc::AllocError;

/// Where this peer is, or else where it would be.
fn place_of_peer(peers: &[u32], peer: u32) -> Result<usize, usize>
    requires { IsInOrder (marked peers.now) }
    ensures within { IsSearchInRange result (length peers.now) }
    ensures place { MatchResult result (IsAt peer (marked peers.now)) (IsGapFor peer (marked peers.now)) }
{
    peers.binary_search(&peer)
}

/// Whether this peer is in the table.
///
/// Asks that the peers stand in ascending order, each once.
pub fn has_peer(peers: &[u32], peer: u32) -> bool
    requires { IsInOrder (marked peers.now) }
    ensures { result ≡ map.contains_key (peers_of peers.now) peer }
{
    place_of_peer(peers, peer).is_ok()
}

/// Puts this peer into the table. True exactly where it wasn't there. An error says that the
/// vector was full and that memory was refused: the peers are as before.
///
/// Asks that the peers stand in ascending order, each once.
pub fn add_peer(peers: &mut Vec<u32>, peer: u32) -> Result<bool, AllocError>
    requires { IsInOrder (marked peers.old.items) }
    ensures order { IsInOrder (marked peers.new.items) }
    ensures added { IfOk result (λ added. added ≡ not (map.contains_key (peers_of peers.old.items) peer)) }
    ensures ok { IfOk result (λ added. peers_of peers.new.items
        ≡ (if added then map.insert (peers_of peers.old.items) peer tt else peers_of peers.old.items)) }
    ensures err { OnErr result ((peers.new.items ≡ peers.old.items) × (vec_capacity peers.old ≤ vec_len peers.old)) }
{
    let Err(place) = place_of_peer(peers, peer) else {
        return Ok(false);
    };
    peers.insert(place, peer)?;
    Ok(true)
}

/// Takes this peer out of the table. True exactly where it was there.
///
/// Asks that the peers stand in ascending order, each once.
pub fn remove_peer(peers: &mut Vec<u32>, peer: u32) -> bool
    requires { IsInOrder (marked peers.old.items) }
    ensures order { IsInOrder (marked peers.new.items) }
    ensures removed { result ≡ map.contains_key (peers_of peers.old.items) peer }
    ensures peers { peers_of peers.new.items ≡ map.remove (peers_of peers.old.items) peer }
    ensures room { room_of peers.old ≤ room_of peers.new }
{
    let Ok(place) = place_of_peer(peers, peer) else {
        return false;
    };
    peers.remove(place);
    true
}

/// The place from which on the peers are above this one. Every peer is above none.
///
/// Asks that the peers stand in ascending order, each once.
pub fn place_above(peers: &[u32], after: Option<Pid>) -> usize
    requires { IsInOrder (marked peers.now) }
    ensures { drop result peers.now ≡ peers_above after peers.now }
{
    let Some(bound) = after else {
        return 0;
    };
    match place_of_peer(peers, bound.0) {
        Ok(place) => place + 1,
        Err(place) => place,
    }
}

/// Where the id of this peer is, or else where it would be.
fn place_of_id(awaited: &[(u32, u64)], peer: u32) -> Result<usize, usize>
    requires { IsInOrder awaited.now }
    ensures within { IsSearchInRange result (length awaited.now) }
    ensures place { MatchResult result (IsAt peer awaited.now) (IsGapFor peer awaited.now) }
{
    awaited.binary_search_by_key(&peer, |entry| entry.0)
}

/// The id of this peer. `None` exactly where there is none.
///
/// Asks that the ids stand by ascending peer, each peer once.
pub fn id_of(awaited: &[(u32, u64)], peer: u32) -> Option<u64>
    requires { IsInOrder awaited.now }
    ensures { result ≡ map.get (ids_of awaited.now) peer }
{
    match place_of_id(awaited, peer) {
        Ok(place) => Some(awaited[place].1),
        Err(_) => None,
    }
}

/// Puts the id of this peer into the table, in place of an older one. An error says that there was
/// none, that the vector was full and that memory was refused: the ids are as before.
///
/// Asks that the ids stand by ascending peer, each peer once.
pub fn set_id(awaited: &mut Vec<(u32, u64)>, peer: u32, id: u64) -> Result<(), AllocError>
    requires { IsInOrder awaited.old.items }
    ensures order { IsInOrder awaited.new.items }
    ensures ok { OnOk result (ids_of awaited.new.items ≡ map.insert (ids_of awaited.old.items) peer id) }
    ensures err { OnErr result ((awaited.new.items ≡ awaited.old.items) × (vec_capacity awaited.old ≤ vec_len awaited.old)) }
{
    match place_of_id(awaited, peer) {
        Ok(place) => awaited[place] = (peer, id),
        Err(place) => awaited.insert(place, (peer, id))?,
    }
    Ok(())
}

/// Takes the id of this peer out of the table.
///
/// Asks that the ids stand by ascending peer, each peer once.
pub fn remove_id(awaited: &mut Vec<(u32, u64)>, peer: u32)
    requires { IsInOrder awaited.old.items }
    ensures order { IsInOrder awaited.new.items }
    ensures ids { ids_of awaited.new.items ≡ map.remove (ids_of awaited.old.items) peer }
{
    if let Ok(place) = place_of_id(awaited, peer) {
        awaited.remove(place);
    }
}
