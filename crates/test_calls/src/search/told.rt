//! What a search tells before each visit, from a table.

use crate::search::graph::Graph;
use sig_search::{Teller, search};
use std::alloc::{AllocError, Global};

// What it was told, in order, and whether there was memory for all of it.
#[derive(Drop)]
struct Told {
    lines: Vec<(usize, usize)>,
    whole: bool,
}

impl Teller for Told {
    fn tell(&mut self, visited: usize, met: usize) {
        if self.lines.push((visited, met)).is_err() {
            self.whole = false;
        }
    }
}

// A graph, the node of which a visit makes a search wrong, the node with which the search begins, how many nodes it visits at
// most, and what it tells: how many were visited and how many were met, before each visit.
struct Row {
    edges: &'static [(u32, u32)],
    refuted: Option<u32>,
    first: u32,
    most: usize,
    lines: &'static [(usize, usize)],
}

static ROWS: [Row; 7] = [
    // no visit
    Row {
        edges: &[(1, 2)],
        refuted: None,
        first: 1,
        most: 0,
        lines: &[],
    },
    // one node: the visit meets none
    Row {
        edges: &[],
        refuted: None,
        first: 7,
        most: 9,
        lines: &[(0, 1)],
    },
    // a chain, where each visit but the last meets one, and the same with too few visits
    Row {
        edges: &[(1, 2), (2, 3)],
        refuted: None,
        first: 1,
        most: 9,
        lines: &[(0, 1), (1, 2), (2, 3)],
    },
    Row {
        edges: &[(1, 2), (2, 3)],
        refuted: None,
        first: 1,
        most: 2,
        lines: &[(0, 1), (1, 2)],
    },
    // the first visit meets three, the others none
    Row {
        edges: &[(0, 1), (0, 2), (0, 3)],
        refuted: None,
        first: 0,
        most: 9,
        lines: &[(0, 1), (1, 4), (2, 4), (3, 4)],
    },
    // a node that is met again isn't counted again
    Row {
        edges: &[(2, 4), (2, 6), (4, 8), (6, 8), (8, 2)],
        refuted: None,
        first: 2,
        most: 4,
        lines: &[(0, 1), (1, 3), (2, 4), (3, 4)],
    },
    // nothing is told after a visit that makes the search wrong
    Row {
        edges: &[(0, 1), (0, 2), (0, 3)],
        refuted: Some(1),
        first: 0,
        most: 9,
        lines: &[(0, 1), (1, 4)],
    },
];

// Whether a search tells what the row says.
fn tells(alloc: Global, row: &Row) -> Result<bool, AllocError> {
    let mut graph = Graph::begun(alloc, row.edges, row.refuted, row.first)?;
    let mut told = Told {
        lines: Vec::new(alloc),
        whole: true,
    };
    let searched = search(&mut graph, row.most, &mut told);
    drop(graph);
    let tells = told.whole && told.lines.as_slice() == row.lines;
    drop(told);
    searched?;
    Ok(tells)
}

#[test]
fn searches_tell_what_the_table_says(rt: HostRuntime) {
    for (place, row) in ROWS.iter().enumerate() {
        let tells = tells(rt.alloc(), row);
        assert!(rt; tells == Ok(true), "{place}");
    }
}
