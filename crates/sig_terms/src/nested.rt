//! Readers of terms with their elements, within a depth and a number of nodes.

ghost use Rattle.std.specs.Prelude.{◌≡◌, []};
ghost use Rattle.sig_terms.specs.Fronts.{Gives, elements_at, items_at, enclosed, compound_at, lone_at, node_at, term_at};

use crate::refusal::ReadTerm;
use crate::term::{Term, Terms};
use crate::tokens::leaf;
use sig_lists::Sequence;
use std::alloc::Global;

/// Adds the elements at the front of the bytes, at least one, up to the byte `close`; the nodes
/// that are left, and the bytes behind.
#[cycle(front)]
#[tactic(auto, using(crate::proofs::Steps::fails, crate::proofs::Steps::no_room))]
fn elements<'a>(
    alloc: Global,
    close: u8,
    depth: u64,
    nodes: u64,
    bytes: &'a [u8],
    items: &mut Terms,
) -> Result<(u64, &'a [u8]), ReadTerm>
    ensures { Gives (λ x. (items.new, x.0, x.1.now)) result (elements_at (term_at depth) close nodes nodes items.old bytes.now) }
{
    let mut left = nodes;
    let mut rest = bytes;
    for _ in 0..nodes {
        let (item, fewer, behind) = front(alloc, depth, left, rest)?;
        items.add(item)?;
        match behind.split_first() {
            Some((b',', more)) => rest = more,
            Some((last, end)) if *last == close => return Ok((fewer, end)),
            _ => return Err(ReadTerm::BadTerm),
        }
        left = fewer;
    }
    Err(ReadTerm::BadTerm)
}

/// Adds the elements behind a bracket, up to the byte `close`.
#[cycle(front)]
#[tactic(auto, unfolding(crate::specs::Fronts::items_at))]
fn inside<'a>(
    alloc: Global,
    close: u8,
    depth: u64,
    nodes: u64,
    bytes: &'a [u8],
    items: &mut Terms,
) -> Result<(u64, &'a [u8]), ReadTerm>
    requires { items.old ≡ [] }
    ensures { Gives (λ x. (items.new, x.0, x.1.now)) result (items_at (term_at depth) close nodes bytes.now) }
{
    match bytes.split_first() {
        None => Err(ReadTerm::BadTerm),
        Some((first, rest)) if *first == close => Ok((nodes, rest)),
        _ => elements(alloc, close, depth, nodes, bytes, items),
    }
}

/// The term of these elements, by the byte that ends it.
fn enclose(close: u8, items: Terms) -> Term
    ensures { result ≡ enclosed close items }
{
    if close == b'}' {
        Term::Tuple(items)
    } else {
        Term::List(items)
    }
}

/// The tuple or the list behind its bracket, up to the byte `close`.
#[cycle(front)]
fn compound(
    alloc: Global,
    close: u8,
    depth: u64,
    nodes: u64,
    bytes: &[u8],
) -> Result<(Term, u64, &[u8]), ReadTerm>
    ensures { Gives (λ x. (x.0, x.1, x.2.now)) result (compound_at (term_at depth) close nodes bytes.now) }
{
    let mut items = Sequence::new(alloc);
    let (left, rest) = inside(alloc, close, depth, nodes, bytes, &mut items)?;
    Ok((enclose(close, items), left, rest))
}

/// The term without elements at the front of the bytes, which leaves all the nodes.
fn lone(alloc: Global, nodes: u64, bytes: &[u8]) -> Result<(Term, u64, &[u8]), ReadTerm>
    ensures { Gives (λ x. (x.0, x.1, x.2.now)) result (lone_at nodes bytes.now) }
{
    let (term, rest) = leaf(alloc, bytes)?;
    Ok((term, nodes, rest))
}

/// The term at the front of the bytes, whose elements have at most `nodes` nodes and this depth.
#[cycle(front)]
#[tactic(auto, unfolding(crate::specs::Fronts::node_at))]
fn node(alloc: Global, depth: u64, nodes: u64, bytes: &[u8]) -> Result<(Term, u64, &[u8]), ReadTerm>
    ensures { Gives (λ x. (x.0, x.1, x.2.now)) result (node_at (term_at depth) nodes bytes.now) }
{
    match bytes.split_first() {
        None => Err(ReadTerm::BadTerm),
        Some((b'{', rest)) => compound(alloc, b'}', depth, nodes, rest),
        Some((b'[', rest)) => compound(alloc, b']', depth, nodes, rest),
        _ => lone(alloc, nodes, bytes),
    }
}

/// The term at the front of the bytes, of at most `nodes` nodes and of this depth; then the nodes
/// that are left, and the bytes behind.
#[cycle(front)]
#[tactic(auto, unfolding(crate::specs::Fronts::term_at, crate::specs::Fronts::front_by))]
pub fn front(
    alloc: Global,
    depth: u64,
    nodes: u64,
    bytes: &[u8],
) -> Result<(Term, u64, &[u8]), ReadTerm>
    ensures { Gives (λ x. (x.0, x.1, x.2.now)) result (term_at depth nodes bytes.now) }
{
    if depth == 0 || nodes == 0 {
        Err(ReadTerm::BadTerm)
    } else {
        node(alloc, depth - 1, nodes - 1, bytes)
    }
}
