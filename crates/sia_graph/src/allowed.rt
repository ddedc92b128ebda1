//! Whether snapshot isolation allows a cycle.
ghost use Rattle.std.specs.Prelude.{◌↔◌, IsTrue};
ghost use Rattle.sia_graph.specs.Allowed.{IsAllowed, IsRwOverlap};

use sia_index::Index;
use sia_parts::{Edge, Kind};

pub(crate) fn is_rw_overlap(ix: &Index, e: &Edge) -> bool
    ensures { IsTrue result ↔ IsRwOverlap ix.now e.now }
{
    matches!(e.kind, Kind::Rw) && ix.overlap(e.src, e.dst)
}

/// Whether of these edges, which lead round a cycle, two rw edges between overlapping transactions follow one another.
pub fn is_allowed(ix: &Index, edges: &[Edge]) -> bool
    ensures { IsTrue result ↔ IsAllowed ix.now edges.now }
{
    for i in 0..edges.len() {
        let next = if i + 1 < edges.len() { i + 1 } else { 0 };
        if is_rw_overlap(ix, &edges[i]) && is_rw_overlap(ix, &edges[next]) {
            return true;
        }
    }
    false
}
