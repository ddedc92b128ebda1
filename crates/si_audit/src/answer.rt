//! What a text comes to, and its report, which is given in pieces.
use crate::edge_lines::EdgeLines;
use crate::engine::Outcome;
use crate::giving::Giving;
use crate::pivot_lines::PivotLines;
use crate::sheet::Sheet;
use crate::spelled::Spelled;
use sia_graph::Neighbour;
use sia_index::Index;
use sia_parts::{EdgeTo, Ordered};
use std::marker::Model;

/// What the lines of edges and of pivots are made from.
#[derive(Drop)]
pub struct Found {
    pub(crate) index: Index,
    pub(crate) ordered: Ordered,
    pub(crate) spelled: Spelled,
}

impl Model for Found {
    ghost use Rattle.std.specs.Prelude.{List, ⊤};
    ghost use Rattle.sia_events.specs.declared.event.Event.{Event};
    ghost use Rattle.sia_parts.specs.EdgeRows.{AreOrdered};
    ghost use Rattle.si_audit.specs.Spelled.{AreSpelled};

    ghost Value = { List Event };

    ghost view = { λ f. f.index };

    ghost invariant = { λ f. AreOrdered f.index (λ _. ⊤) f.ordered × AreSpelled f.index f.spelled };
}

/// What a text comes to: how its run ends, and its report.
#[derive(Drop)]
pub struct Answer {
    pub outcome: Outcome,
    /// The lines before those of edges and pivots, which are made from what was found, if they are told, and those behind them.
    pub(crate) front: Vec<u8>,
    pub(crate) found: Option<Found>,
    pub(crate) back: Vec<u8>,
}

/// A report, which shows its bytes piece by piece. It has all the memory that it needs.
#[derive(Drop)]
pub struct Report<'a> {
    /// The piece that is shown: this one, or what stands on the sheet, if this is empty.
    pub(crate) shown: &'a [u8],
    pub(crate) sheet: Sheet,
    /// What comes behind it.
    pub(crate) front: &'a [u8],
    pub(crate) edges: Option<Giving<EdgeLines<'a>, EdgeTo>>,
    pub(crate) pivots: Option<Giving<PivotLines<'a>, Neighbour>>,
    pub(crate) back: &'a [u8],
}

impl<'a> Model for Report<'a> {
    ghost use Rattle.si_audit.specs.Left.{CanGiveEdges, CanGivePivots, Left, first_of};
    ghost use Rattle.si_audit.specs.Sheet.{text_on};

    ghost Value = { Left };

    ghost view = { λ r. record {
      piece = first_of r.shown.now (text_on r.sheet);
      front = r.front.now;
      edges = r.edges;
      pivots = r.pivots;
      back = r.back.now;
    } };

    ghost invariant = { λ r. CanGiveEdges r.edges × CanGivePivots r.pivots };
}
