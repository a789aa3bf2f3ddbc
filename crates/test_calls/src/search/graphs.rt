//! Graphs, from a table: how many nodes are searched at most, what is met in which order, and how the search ends.

use crate::search::graph::Graph;
use sig_search::{Found, Silent, search};
use std::alloc::{AllocError, Global};

// A graph, the node of which a visit makes a search wrong, the node with which the search begins, how many nodes it visits at
// most, the nodes that it meets in their order, and how it ends.
struct Row {
    edges: &'static [(u32, u32)],
    refuted: Option<u32>,
    first: u32,
    most: usize,
    met: &'static [u32],
    found: Found,
}

static ROWS: [Row; 22] = [
    // no edge: one node
    Row {
        edges: &[],
        refuted: None,
        first: 7,
        most: 1,
        met: &[7],
        found: Found::All,
    },
    Row {
        edges: &[],
        refuted: None,
        first: 7,
        most: 0,
        met: &[7],
        found: Found::More,
    },
    // a chain, and the same with too few visits
    Row {
        edges: &[(1, 2), (2, 3)],
        refuted: None,
        first: 1,
        most: 3,
        met: &[1, 2, 3],
        found: Found::All,
    },
    Row {
        edges: &[(1, 2), (2, 3)],
        refuted: None,
        first: 1,
        most: 9,
        met: &[1, 2, 3],
        found: Found::All,
    },
    Row {
        edges: &[(1, 2), (2, 3)],
        refuted: None,
        first: 1,
        most: 2,
        met: &[1, 2, 3],
        found: Found::More,
    },
    Row {
        edges: &[(1, 2), (2, 3)],
        refuted: None,
        first: 1,
        most: 1,
        met: &[1, 2],
        found: Found::More,
    },
    // what leads to the beginning isn't met
    Row {
        edges: &[(1, 2), (2, 3)],
        refuted: None,
        first: 2,
        most: 9,
        met: &[2, 3],
        found: Found::All,
    },
    // an edge to itself, and a ring
    Row {
        edges: &[(4, 4)],
        refuted: None,
        first: 4,
        most: 1,
        met: &[4],
        found: Found::All,
    },
    Row {
        edges: &[(1, 3), (3, 5), (5, 1)],
        refuted: None,
        first: 3,
        most: 3,
        met: &[3, 5, 1],
        found: Found::All,
    },
    // two ways to one node, which is met once; nodes with one mark
    Row {
        edges: &[(2, 4), (2, 6), (4, 8), (6, 8), (8, 2)],
        refuted: None,
        first: 2,
        most: 4,
        met: &[2, 4, 6, 8],
        found: Found::All,
    },
    // in the order in which they are met, not by number
    Row {
        edges: &[(0, 9), (0, 1), (9, 5), (1, 4)],
        refuted: None,
        first: 0,
        most: 9,
        met: &[0, 9, 1, 5, 4],
        found: Found::All,
    },
    Row {
        edges: &[(0, 9), (0, 1), (9, 5), (1, 4)],
        refuted: None,
        first: 0,
        most: 2,
        met: &[0, 9, 1, 5],
        found: Found::More,
    },
    // wrong at the first visit, one in the middle, and the last: what that visit meets is met, and nothing after it
    Row {
        edges: &[(1, 2), (2, 3)],
        refuted: Some(1),
        first: 1,
        most: 9,
        met: &[1, 2],
        found: Found::Wrong,
    },
    Row {
        edges: &[(1, 2), (2, 3)],
        refuted: Some(2),
        first: 1,
        most: 9,
        met: &[1, 2, 3],
        found: Found::Wrong,
    },
    Row {
        edges: &[(1, 2), (2, 3)],
        refuted: Some(3),
        first: 1,
        most: 9,
        met: &[1, 2, 3],
        found: Found::Wrong,
    },
    Row {
        edges: &[(1, 2), (2, 3)],
        refuted: Some(3),
        first: 1,
        most: 3,
        met: &[1, 2, 3],
        found: Found::Wrong,
    },
    Row {
        edges: &[],
        refuted: Some(7),
        first: 7,
        most: 1,
        met: &[7],
        found: Found::Wrong,
    },
    // wrong at the last visit that the bound leaves, where more were met
    Row {
        edges: &[(1, 2), (2, 3)],
        refuted: Some(2),
        first: 1,
        most: 2,
        met: &[1, 2, 3],
        found: Found::Wrong,
    },
    // what would be wrong stands beyond the bound, or isn't met
    Row {
        edges: &[(1, 2), (2, 3)],
        refuted: Some(3),
        first: 1,
        most: 2,
        met: &[1, 2, 3],
        found: Found::More,
    },
    Row {
        edges: &[],
        refuted: Some(7),
        first: 7,
        most: 0,
        met: &[7],
        found: Found::More,
    },
    Row {
        edges: &[(1, 2), (2, 3)],
        refuted: Some(1),
        first: 2,
        most: 9,
        met: &[2, 3],
        found: Found::All,
    },
    // one of several that were met: those behind it aren't visited
    Row {
        edges: &[(0, 9), (0, 1), (9, 5), (1, 4)],
        refuted: Some(9),
        first: 0,
        most: 9,
        met: &[0, 9, 1, 5],
        found: Found::Wrong,
    },
];

// Whether these nodes were met, in this order.
fn has_met(graph: &Graph<'_>, met: &[u32]) -> bool {
    if graph.nodes.len() != met.len() {
        return false;
    }
    for at in 0..met.len() {
        let Some(node) = graph.nodes.get(at) else {
            return false;
        };
        if node.number != met[at] {
            return false;
        }
    }
    true
}

// Whether a search goes as the row says.
fn goes(alloc: Global, row: &Row) -> Result<bool, AllocError> {
    let mut graph = Graph::begun(alloc, row.edges, row.refuted, row.first)?;
    let found = search(&mut graph, row.most, &mut Silent)?;
    Ok(found == row.found && has_met(&graph, row.met))
}

#[test]
fn searches_meet_what_the_table_says(rt: HostRuntime) {
    for (place, row) in ROWS.iter().enumerate() {
        let goes = goes(rt.alloc(), row);
        assert!(rt; goes == Ok(true), "{place}");
    }
}
