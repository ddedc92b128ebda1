//! Edges, source by source, made from the positions of what transactions wrote and saw.
ghost use Rattle.std.specs.Prelude.{◌≡◌, ◌↔◌, ◌<◌, ◌+◌, ◌-◌, ℕ, IfOk, IsTrue, length, ◌≤◌, vec_capacity};
ghost use Rattle.sia_index.specs.Numbers.{IsCommittedAt};
ghost use Rattle.sia_index.specs.Info.{IsKeyAt};
ghost use Rattle.sia_index.specs.Positions.{HasPosition, IsAtPosition};
ghost use Rattle.sia_index.specs.declared.info.KeyVersion.{KeyVersion as version};
ghost use Rattle.sia_parts.specs.declared.finding.Kind.TheVariants.{Rw};
ghost use Rattle.sia_parts.specs.Accesses.{AreAccesses};
ghost use Rattle.sia_parts.specs.EdgeRows.{AreEdgesFrom, AreOrdered, CanTell, HasRoom, IsKeyEnd, IsMakerRow, IsMissRow, IsOfKey, IsReaderRow, Puts, edge_of, missed_by, noted_between, row_bound, saw_by};
ghost use Rattle.sia_parts.specs.Findings.{ListsEdges};
ghost use Rattle.sia_parts.specs.Parts.{IsWithin};
ghost use Rattle.sia_parts.specs.Sights.{FromSome};

use crate::accesses::Accesses;
use crate::cutting::Part;
use crate::finding::{Edge, Kind};
use crate::ordered::Ordered;
use sia_events::{Key, NoMemory, TxnId};
use sia_index::Index;
use sia_index::keyed::{By, ByTxn};
use sia_index::lists::Lists;
use sia_index::ordering::Sorter;
use std::alloc::Global;

/// An edge from a source that is known, by the number of its target among the committed transactions and that of its key among
/// the written ones. They are listed by target, kind and key.
#[derive(Clone, Copy, PartialEq, Eq, PartialOrd, Ord)]
pub struct EdgeTo {
    pub target: u32,
    pub kind: Kind,
    pub key: u32,
}

impl EdgeTo {
    /// The edge by names, of these transactions and keys.
    #[inline(always)]
    pub fn named(self, txns: &[TxnId], keys: &[Key], source: u32) -> Edge
        ensures { result ≡ edge_of txns.now keys.now source self }
    {
        Edge {
            src: txns.get(source as usize).copied().unwrap_or(0),
            dst: txns.get(self.target as usize).copied().unwrap_or(0),
            kind: self.kind,
            key: keys.get(self.key as usize).copied().unwrap_or(0),
        }
    }
}

/// By target.
impl By<EdgeTo> for ByTxn {
    ghost by = { λ row. row.target };

    fn number(row: &EdgeTo) -> u64 {
        u64::from(row.target)
    }
}

/// What the edges at the keys of a part are made from, or, where there is none, those at all keys.
#[derive(Drop)]
pub struct Edges<'a> {
    pub index: &'a Index,
    /// What was seen at these keys, in order.
    pub accesses: &'a Accesses,
    pub within: Option<Part>,
    /// For each position who saw the version there and no newer one of its key.
    pub readings: &'a Lists<u32>,
}

impl<'a> Edges<'a> {
    pub fn of(index: &'a Index, ordered: &'a Ordered, within: Option<Part>) -> Edges<'a>
        requires { AreOrdered index.now (IsWithin within) ordered.now }
        ensures tell { CanTell result }
        ensures index { result.index.now ≡ index.now }
        ensures within { result.within ≡ within }
    {
        Edges {
            index,
            accesses: &ordered.accesses,
            within,
            readings: &ordered.newest,
        }
    }

    /// How many rows the edges from a source take at most.
    pub fn most_rows(&self) -> usize
        requires { CanTell self.now }
        ensures { result ≡ row_bound self.now }
    {
        3 * self.index.position_count() as usize + self.readings.rows().len()
    }

    /// Puts the edges from the source into the list, which has room for them, each once, in order, in place of what it held.
    pub fn put_from(&self, source: u32, rows: &mut Vec<EdgeTo>, sorter: &mut Sorter<EdgeTo>)
        requires tell { CanTell self.now }
        requires source { (t : ℕ) × IsCommittedAt self.now.index.now source t }
        requires room { row_bound self.now ≤ vec_capacity rows.old }
        ensures edges { AreEdgesFrom self.now.index.now (IsWithin self.now.within) source rows.new.items }
        ensures room { vec_capacity rows.new ≡ vec_capacity rows.old }
    {
        self.index.law();
        rows.clear();
        // What the source made leads to later versions, and to who saw its own or later ones.
        let made = self.index.made_by(source as usize);
        for position in made {
            if self.is_within(*position) {
                let end = self.put_makers(source, Kind::Ww, *position, rows);
                self.put_readers(source, *position, end, rows);
            }
        }
        self.put_seen(source, rows);
        self.put_missed(source, rows);
        sorter.sort::<ByTxn>(rows);
    }

    /// Adds the edges to the versions behind those that the source saw. Of each key the oldest one has them all.
    fn put_seen(&self, source: u32, rows: &mut Vec<EdgeTo>)
        requires tell { CanTell self.now }
        requires source { (t : ℕ) × IsCommittedAt self.now.index.now source t }
        requires room { HasRoom (length self.now.readings.now) rows.old }
        ensures { Puts (FromSome (IsMakerRow self.now.index.now source Rw) (saw_by self.now source))
            (length self.now.readings.now) rows.old rows.new }
    {
        let mut end = 0;
        for position in self.accesses.saw.at(source as usize) {
            if *position >= end {
                end = self.put_makers(source, Kind::Rw, *position, rows);
            }
        }
    }

    /// Adds the edges to all versions of the keys that the source passed over. Keys of which no version was committed cost nothing.
    fn put_missed(&self, source: u32, rows: &mut Vec<EdgeTo>)
        requires tell { CanTell self.now }
        requires source { (t : ℕ) × IsCommittedAt self.now.index.now source t }
        requires room { HasRoom (length self.now.readings.now) rows.old }
        ensures { Puts (FromSome (λ miss. IsMissRow self.now.index.now source miss.from miss.to)
            (missed_by self.now source)) (length self.now.readings.now) rows.old rows.new }
    {
        self.index.law();
        let mut end = 0;
        for miss in self.accesses.missed.at(source as usize) {
            let mut from = miss.from.max(end);
            while let Some(key) = self.index.next_visible(from, miss.to, u32::MAX) {
                self.put_makers(source, Kind::Rw, self.index.first_position(key), rows);
                from = key + 1;
            }
            end = miss.to.max(end);
        }
    }

    /// Adds the edges to who made the versions of the key behind the position, and answers where its positions end.
    fn put_makers(&self, source: u32, kind: Kind, position: u32, rows: &mut Vec<EdgeTo>) -> u32
        requires position { HasPosition self.now.index.now position }
        requires room { (end : ℕ) → IsKeyEnd self.now.index.now position end → HasRoom (end - position) rows.old }
        ensures end { IsKeyEnd self.now.index.now position result }
        ensures puts { Puts (IsMakerRow self.now.index.now source kind position) (result - position)
            rows.old rows.new }
    {
        let key = self.index.key_at(position);
        let makers = self.index.makers_behind(position);
        for maker in makers {
            let target = *maker;
            if target != source {
                rows.push_reserved(EdgeTo { target, kind, key });
            }
        }
        position + 1 + makers.len() as u32
    }

    /// Adds the edges to who saw a version of the key at the position or behind it.
    fn put_readers(&self, source: u32, position: u32, end: u32, rows: &mut Vec<EdgeTo>)
        requires tell { CanTell self.now }
        requires position { HasPosition self.now.index.now position }
        requires end { IsKeyEnd self.now.index.now position end }
        requires room { HasRoom (noted_between self.now.readings.now position end) rows.old }
        ensures { Puts (IsReaderRow self.now source position) (noted_between self.now.readings.now position end)
            rows.old rows.new }
    {
        let key = self.index.key_at(position);
        for seen in position..end {
            for reader in self.readings.at(seen as usize) {
                let target = *reader;
                if target != source {
                    let kind = Kind::Wr;
                    rows.push_reserved(EdgeTo { target, kind, key });
                }
            }
        }
    }

    /// Whether the key of the position is one of those at which edges are told.
    fn is_within(&self, position: u32) -> bool
        requires { HasPosition self.now.index.now position }
        ensures { (j k : ℕ) → IsOfKey self.now.index.now j position → IsKeyAt self.now.index.now j k
            → IsTrue result ↔ IsWithin self.now.within k }
    {
        match self.within {
            Some(part) => {
                let key = self.index.written_keys()[self.index.key_at(position) as usize];
                part.lo <= key && key <= part.hi
            }
            None => true,
        }
    }
}

/// The position of version 0 of the key of this number, or how many positions there are if there is no such key.
pub fn first_or_end(ix: &Index, key: u32) -> u32
    ensures within { (q : ℕ) → q < result → HasPosition ix.now q }
    ensures parts { (q : ℕ) (v : version) (j : ℕ) → IsAtPosition ix.now q v → IsKeyAt ix.now j v.key
        → (q < result) ↔ (j < key) }
{
    if (key as usize) < ix.written_keys().len() {
        ix.first_position(key)
    } else {
        ix.position_count()
    }
}

/// All edges by names at the keys of the part, or at all keys, of what was seen there.
pub fn edges_at(
    alloc: Global,
    ix: &Index,
    accesses: &Accesses,
    within: Option<Part>,
) -> Result<Vec<Edge>, NoMemory>
    requires { AreAccesses ix.now (IsWithin within) accesses.now }
    ensures { IfOk result (λ all. ListsEdges ix.now (IsWithin within) all.items) }
{
    ix.law();
    let ordered = Ordered::of(alloc, ix, accesses)?;
    let edges = Edges::of(ix, &ordered, within);
    let txns = ix.committed();
    let keys = ix.written_keys();
    let mut all = Vec::new(alloc);
    let mut rows = Vec::with_capacity(alloc, edges.most_rows())?;
    let mut sorter = Sorter::with_capacity(alloc, edges.most_rows())?;
    for source in 0..txns.len() as u32 {
        edges.put_from(source, &mut rows, &mut sorter);
        for row in &rows {
            all.push(row.named(txns, keys, source))?;
        }
    }
    Ok(all)
}
