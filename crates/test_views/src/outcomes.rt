//! Searches for outcomes that are cut off, and the records of runs that end in those that were found.

use crate::called::Called;
use crate::recorded::{asked_for, called_with, count_of, is_told_by_records};
use sig_view::ViewStatus;
use std::alloc::{AllocError, Global};
use test_shared::CLIENTS;

/// Whether the call says that there may be more outcomes, and how many states were met.
fn tells_states(alloc: Global, called: &Called) -> Result<bool, AllocError> {
    let ViewStatus::Unfinished { states } = called.status else {
        return Ok(false);
    };
    let told = format!(in alloc; "sigview: states met: {states}; there may be more outcomes\n")?;
    let is_told = called.is(called.status, b"outcomes 0 more\n", told.as_bytes());
    drop(told);
    Ok(is_told && called.status.number() == 0)
}

/// The same of a search that visits one state.
fn is_unfinished(alloc: Global) -> Result<bool, AllocError> {
    let called = called_with(alloc, &["outcomes", "--states", "1"], CLIENTS)?;
    let unfinished = tells_states(alloc, &called);
    drop(called);
    unfinished
}

#[test]
fn a_search_that_has_not_ended_says_so(rt: HostRuntime) {
    let unfinished = is_unfinished(rt.alloc());
    assert!(rt; unfinished == Ok(true));
}

/// Three processes in a ring of links, of which one ends.
const RING_OF_LINKS: &[u8] =
    b"sigscript 1\nprocess p0\nlink @p1\nexit boom\nprocess p1\nlink @p2\nreceive\non x\nend\n\
      process p2\nlink @p0\nreceive\non x\nend\n";

/// So many states are too few to find each outcome of the ring of links.
const FEW: &str = "80";

/// Whether the outcome of this number isn't found, once so many states were met.
fn is_not_found(alloc: Global, number: usize, states: u64) -> Result<bool, AllocError> {
    let called = asked_for(alloc, RING_OF_LINKS, Some(FEW), number)?;
    let missing = called.status == ViewStatus::NotFound { states } && called.out.held().is_empty();
    drop(called);
    Ok(missing)
}

/// How many outcomes the call lists, where each of their numbers has a record that tells the outcome of that
/// number, and the next one isn't found.
fn count_in(alloc: Global, called: &Called) -> Result<Option<usize>, AllocError> {
    let ViewStatus::Unfinished { states } = called.status else {
        return Ok(None);
    };
    let listed = called.out.held();
    let count = count_of(listed);
    let are_told = is_told_by_records(alloc, RING_OF_LINKS, Some(FEW), listed, "more")?;
    let missing = is_not_found(alloc, count.saturating_add(1), states)?;
    Ok((are_told && missing).then_some(count))
}

/// The same of the ring of links with so few states.
fn count_with_records(alloc: Global) -> Result<Option<usize>, AllocError> {
    let called = called_with(alloc, &["outcomes", "--states", FEW], RING_OF_LINKS)?;
    let count = count_in(alloc, &called);
    drop(called);
    count
}

#[test]
fn records_tell_what_a_search_lists_that_is_cut_off(rt: HostRuntime) {
    let count = count_with_records(rt.alloc());
    assert!(rt; count == Ok(Some(2)), "{count:?}");
}
