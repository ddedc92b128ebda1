//! The laws of histories, each carried by a function that does nothing.
ghost use Rattle.std.specs.Prelude.{ℕ, List};
ghost use Rattle.sia_events.specs.declared.event.Event.{Event};
ghost use Rattle.sia_events.specs.Laws.{PivotLaw, ReplayLaw, SsiLaw};
ghost use Rattle.sia_events.specs.Refusals.{IsWellFormed};
ghost use Rattle.sia_parts.specs.declared.finding.Edge.{Edge};
ghost use Rattle.sia_graph.specs.Allowed.{CycleLaw};
ghost use Rattle.sia_graph.specs.Blocks.{BlocksLaw};
ghost use Rattle.sia_graph.specs.Closures.{ClosureLaw};
ghost use Rattle.sia_graph.specs.Extremes.{FirstsLaw};
ghost use Rattle.sia_graph.specs.Listings.{ListingLaw};
ghost use Rattle.sia_graph.specs.StandIns.{StandInLaw};

/// An order replays a history exactly if it keeps every edge and no read is unexplained.
pub fn replay_law()
    ensures { (h : List Event) → IsWellFormed h → ReplayLaw h }
{}

/// What keeps isolation, with no dangerous structure whose last transaction commits first, has a serial order.
pub fn ssi_law()
    ensures { (h : List Event) → IsWellFormed h → SsiLaw h }
{}

/// A well-formed history has a list of its edges, and a list of its pivots with their neighbours, though no code makes them.
pub fn listing_law()
    ensures { (h : List Event) → IsWellFormed h → ListingLaw h }
{}

/// The laws that no other code needs: each clause is one.
pub fn laws_hold()
    // What keeps isolation with no pivot has a serial order.
    ensures pivot_law { (h : List Event) → IsWellFormed h → PivotLaw h }
    // Of what keeps isolation, every cycle has two rw edges between overlapping transactions that follow one another.
    ensures cycle_law { (h : List Event) → IsWellFormed h → CycleLaw h }
    // Pairs that lead the ways that the edges lead settle what these settle.
    ensures closure_law { (h : List Event) → ClosureLaw h }
    // Where isolation is kept, commits alone tell the first of a dangerous structure, and which histories pass.
    ensures firsts_law { (h : List Event) → IsWellFormed h → FirstsLaw h }
    // Where blocks stand between members, the least order and the stuck set without them are those of the members.
    ensures blocks_law { (floor : ℕ) (ids : List ℕ) (edges : List Edge) → BlocksLaw floor ids edges }
    // Nodes and edges that stand for a history, with blocks among them, settle what all its edges settle.
    ensures stand_in_law { (h : List Event) → StandInLaw h }
{}
