//! Tests of the search, on small graphs, and of its pool and its rows, with few and with many things.

mod graph;
mod graphs;
mod pools;
mod rows;
mod told;
