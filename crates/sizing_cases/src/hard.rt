// Netlists with too many sizings to try them all.
use anyhow::Context;
use drafts::Draft;
use netlist::Kind;
use std::alloc::Global;

// Blocks one after another, each joined with the next by two ways: through so many blocks, and through so many relay stations. For the
// rate 1 each pair of ways lacks a slot for each relay station.
pub fn reconvergent(
    heap: Global,
    pairs: usize,
    blocks: usize,
    relays: usize,
) -> anyhow::Result<Draft> {
    let mut draft = Draft::new(heap);
    let mut from = draft.add(Kind::Block)?;
    for _ in 0..pairs {
        let to = draft.add(Kind::Block)?;
        draft.way(from, Kind::Block, blocks, to)?;
        draft.way(from, Kind::RelayStation, relays, to)?;
        from = to;
    }
    Ok(draft)
}

// The edges of the Petersen graph: a ring of five vertices, a star of five, and an edge from each of the one to one of the other.
pub const PETERSEN: [(usize, usize); 15] = [
    (0, 1),
    (1, 2),
    (2, 3),
    (3, 4),
    (4, 0),
    (0, 5),
    (1, 6),
    (2, 7),
    (3, 8),
    (4, 9),
    (5, 7),
    (6, 8),
    (7, 9),
    (8, 5),
    (9, 6),
];

// A channel for each vertex of a graph, and for each edge a way from the source of each of its vertices through a relay station to the
// sink of the other. For the rate 5/6, which a ring beside them has, each edge asks for a slot at one of its vertices: so the fewest
// slots are the fewest vertices that cover all edges.
pub fn cover(heap: Global, vertices: usize, edges: &[(usize, usize)]) -> anyhow::Result<Draft> {
    let mut draft = Draft::new(heap);
    let mut ends = Vec::new(heap);
    for _ in 0..vertices {
        let source = draft.add(Kind::Block)?;
        let sink = draft.run(source, Kind::Block, 1)?;
        ends.push((source, sink))?;
    }
    for (u, v) in edges {
        let (source, sink) = *ends.get(*u).context("an edge to no vertex")?;
        let (other_source, other_sink) = *ends.get(*v).context("an edge to no vertex")?;
        draft.way(source, Kind::RelayStation, 1, other_sink)?;
        draft.way(other_source, Kind::RelayStation, 1, sink)?;
    }
    let first = draft.add(Kind::Block)?;
    let fifth = draft.run(first, Kind::Block, 4)?;
    draft.way(fifth, Kind::RelayStation, 1, first)?;
    draft.join(first, 1)?;
    Ok(draft)
}
