//! A graph of numbers, as a space to search, where one of them may make a search wrong.

ghost use Rattle.std.specs.Prelude.{ℕ, ◌≡◌, ◌%◌, [], false, IfOk};
ghost use Rattle.std.specs.Hash as fed;
ghost use Rattle.sig_search.specs.Growing.{Grows};

use sig_search::{Plain, Pool, Space};
use std::alloc::{AllocError, Global};
use std::hash::Hasher;

/// A node of a graph.
#[derive(Drop)]
pub struct Node {
    /// Its number in the graph.
    pub number: u32,
}

impl Plain for Node {
    ghost Sight = { ℕ };

    ghost shown = { λ n. n.number };

    ghost fed = { λ n. fed.u8 (n % 2) };

    fn same(&self, other: &Node) -> bool {
        self.number == other.number
    }

    // Only two marks, so that nodes share one.
    fn hash<H: Hasher>(&self, hasher: &mut H) {
        hasher.write_u8((self.number % 2) as u8);
    }
}

/// A graph by its edges, and the nodes of it that were met.
#[derive(Drop)]
pub struct Graph<'e> {
    /// Each edge leads from its first node to its second one.
    pub edges: &'e [(u32, u32)],
    /// The node of which a visit makes the search wrong, where there is one.
    pub refuted: Option<u32>,
    /// Whether it was visited.
    pub wrong: bool,
    /// The nodes met.
    pub nodes: Pool<Node>,
}

impl<'e> Graph<'e> {
    /// The graph with these edges, of which this node was met. A visit of the refuted node, where there is one, makes the
    /// search wrong.
    pub fn begun(
        alloc: Global,
        edges: &'e [(u32, u32)],
        refuted: Option<u32>,
        first: u32,
    ) -> Result<Graph<'e>, AllocError>
        ensures { IfOk result (λ g. g.wrong ≡ false) }
    {
        let mut nodes = Pool::new(alloc);
        nodes.number(Node { number: first })?;
        Ok(Graph {
            edges,
            refuted,
            wrong: false,
            nodes,
        })
    }
}

/// Meets the node to which the edge leads, where it begins at this one. The error is want of memory.
fn meet(nodes: &mut Pool<Node>, edge: (u32, u32), from: u32) -> Result<(), AllocError>
    ensures { Grows nodes.old nodes.new }
{
    if edge.0 == from {
        nodes.number(Node { number: edge.1 })?;
    }
    Ok(())
}

/// Meets all to which the edges lead that begin at this node. The error is want of memory.
fn meet_all(nodes: &mut Pool<Node>, edges: &[(u32, u32)], from: u32) -> Result<(), AllocError>
    ensures { Grows nodes.old nodes.new }
{
    for i in 0..edges.len() {
        meet(nodes, edges[i], from)?;
    }
    Ok(())
}

// Contracts aren't told what a node leads to, nor what comes of it: to them it is enough that nothing is met, and any node may be. The
// tests look at what is met.
impl<'e> Space for Graph<'e> {
    ghost use Rattle.test_calls.specs.declared.search.graph.Node.{Node};

    ghost Ground = { Unit {0} };

    ghost Thing = { Node };

    ghost given = { λ g. tt };

    ghost met = { λ g. g.nodes };

    ghost keeps = { λ _. Unit {0} };

    ghost leads = { λ _ node nexts. nexts ≡ [] };

    ghost comes = { λ _ node next. Unit {0} };

    ghost wrong = { λ g. g.wrong };

    fn len(&self) -> usize {
        self.nodes.len()
    }

    fn is_wrong(&self) -> bool {
        self.wrong
    }

    fn visit(&mut self, at: usize) -> Result<(), AllocError> {
        let Some(node) = self.nodes.get(at) else {
            return Ok(());
        };
        let from = node.number;
        self.wrong = self.refuted == Some(from);
        meet_all(&mut self.nodes, self.edges, from)
    }
}
