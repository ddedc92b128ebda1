//! The explained report: the lines of the brief one, with reasons.
ghost use Rattle.std.specs.Prelude.{◌≡◌, ◌++◌, ◌∷◌, ⊤, ℕ, List, IfOk, OnOk, ◌≢◌, All};
ghost use Rattle.sia_events.specs.Transactions.{IsCommitted};
ghost use Rattle.sia_parts.specs.Entries.{IsEdge};
ghost use Rattle.sia_parts.specs.Accesses.{AreAccesses};
ghost use Rattle.sia_graph.specs.Verdicts.{IsVerdict};
ghost use Rattle.si_audit.specs.Engine.{IsReportOf};
ghost use Rattle.si_audit.specs.Explained.{TellsDanger, TellsVerdict, WithReasons, edges_round, TellsAll};
ghost use Rattle.sia_graph.specs.Judgements.{IsJudgement};
ghost use Rattle.sia_events.specs.Limits.{Limits};
ghost use Rattle.sia_events.specs.Locating.{StandsForLocated};
ghost use Rattle.sia_events.specs.Refusals.{IsRefusal};
ghost use Rattle.sia_events.specs.Streaming.{Progress, StandsForRead};
ghost use Rattle.si_audit.specs.RefusedPlaces.{TellsToken};
ghost use Rattle.sia_parts.specs.declared.finding.Kind.TheVariants.{Ww};
ghost use Rattle.sia_parts.specs.Acts.{HasActs};
ghost use Rattle.sia_parts.specs.Sightings.{reader_of};
ghost use Rattle.si_audit.specs.Reasons.{TellsEvents, TellsSight, TellsStep};
ghost use Rattle.sia_events.specs.Isolation.{IsBadRead, IsBadWrite, IsUnexplained};
ghost use Rattle.si_audit.specs.Counts.{TellsCounts};
ghost use Rattle.si_audit.specs.Lines as lines;
ghost use Rattle.si_audit.specs.Reasons as reasons;

use crate::options::Form;
use crate::report::{
    Finding, Words, number, push_front, push_line, push_verdict, push_whether, push_words,
};
use crate::snapshot_lines::push_snapshots;
use crate::snapshots::bounds_of;
use sia_events::{Anomaly, Locator, Log, NoMemory, TextFault, push_number, push_shown};
use sia_graph::{Judgement, Step, Verdict, danger_of, is_allowed, listing_law};
use sia_index::Index;
use sia_parts::{
    Accesses, BadRead, BadWrite, Edge, Kind, Recorded, Unexplained, acts_of, anomaly_of,
    first_sight, loss_of, push_event, push_start, push_unless, push_version, reader_of_edge,
};
use std::alloc::{AllocError, Global};

/// The dangerous structure with the reasons of its steps, where isolation was kept and the test of serializable snapshot
/// isolation fails.
fn push_danger(
    alloc: Global,
    out: &mut Vec<u8>,
    of: &Recorded,
    j: &Judgement,
    accesses: &Accesses,
) -> Result<(), NoMemory>
    requires index { of.now.index.now ≡ of.now.history.now }
    requires accesses { AreAccesses of.now.index.now (λ _. ⊤) accesses.now }
    requires judgement { IsJudgement of.now.history.now j.now }
    ensures { OnOk result ((bytes : List ℕ) × TellsDanger of.now.history.now bytes
        × (out.new.items ≡ out.old.items ++ bytes)) }
{
    let Some(d) = danger_of(alloc, of.index, accesses, j)? else {
        return Ok(());
    };
    let words = [
        number(d.first),
        Words::Edge(Kind::Rw, d.first_key),
        number(d.pivot),
        Words::Edge(Kind::Rw, d.last_key),
        number(d.last),
    ];
    push_line(out, b"dangerous", &words)?;
    let edges = [
        Edge {
            src: d.first,
            dst: d.pivot,
            kind: Kind::Rw,
            key: d.first_key,
        },
        Edge {
            src: d.pivot,
            dst: d.last,
            kind: Kind::Rw,
            key: d.last_key,
        },
    ];
    push_steps(alloc, out, of, &edges)
}

fn edges_of(alloc: Global, steps: &[Step]) -> Result<Vec<Edge>, NoMemory>
    ensures { IfOk result (λ edges. (home : Step) (rest : List Step) → steps.now ≡ home ∷ rest
        → edges.items ≡ edges_round steps.now home.txn) }
{
    let mut edges = Vec::new(alloc);
    for i in 0..steps.len() {
        let step = steps[i];
        let next = if i + 1 < steps.len() { i + 1 } else { 0 };
        edges.push(Edge {
            src: step.txn,
            dst: steps[next].txn,
            kind: step.kind,
            key: step.key,
        })?;
    }
    Ok(edges)
}

/// The order, or the cycle with the reasons of its steps and its class.
fn push_verdict_reasons(
    alloc: Global,
    out: &mut Vec<u8>,
    of: &Recorded,
    verdict: &Verdict,
) -> Result<(), NoMemory>
    requires index { of.now.index.now ≡ of.now.history.now }
    requires verdict { IsVerdict (IsCommitted of.now.history.now) (IsEdge of.now.history.now) verdict.now }
    ensures { OnOk result ((bytes : List ℕ) × WithReasons lines.verdict_line
        (TellsVerdict of.now.history.now) verdict.now bytes × (out.new.items ≡ out.old.items ++ bytes)) }
{
    push_verdict(out, verdict)?;
    let Verdict::Cycle(steps) = verdict else {
        return Ok(());
    };
    let edges = edges_of(alloc, steps.as_slice())?;
    push_steps(alloc, out, of, &edges)?;
    let class: &[u8] = if is_allowed(of.index, &edges) {
        b"  allowed under snapshot isolation: two rw steps between overlapping transactions follow one another\n"
    } else {
        b"  forbidden under snapshot isolation: no two rw steps between overlapping transactions follow one another\n"
    };
    Ok(out.extend_from_slice(class)?)
}

pub(crate) fn explained(
    alloc: Global,
    history: &Log,
    ix: &Index,
    j: &Judgement,
    accesses: &Accesses,
) -> Result<Vec<u8>, NoMemory>
    requires index { ix.now ≡ history.now }
    requires accesses { AreAccesses ix.now (λ _. ⊤) accesses.now }
    requires judgement { IsJudgement history.now j.now }
    ensures { IfOk result (λ sheet. IsReportOf Form.Explained history.now sheet.items) }
{
    history.law();
    listing_law();
    let later = j.bad_writes.iter().map(|b| b.second).collect(alloc)?;
    let acts = acts_of(alloc, history, later)?;
    let of = Recorded {
        history,
        index: ix,
        acts: &acts,
    };
    let mut out = Vec::new(alloc);
    push_front(&mut out, Some(&of), j)?;
    push_snapshots(alloc, &mut out, history, &bounds_of(alloc, history, ix, j)?)?;
    push_whether(&mut out, b"ssi", j.pass, b"pass", b"fail")?;
    push_danger(alloc, &mut out, &of, j, accesses)?;
    push_whether(&mut out, b"serializable", j.serializable, b"yes", b"no")?;
    push_verdict_reasons(alloc, &mut out, &of, &j.verdict)?;
    Ok(out)
}

/// What stands below the line of a refused text.
pub(crate) fn push_place(
    out: &mut Vec<u8>,
    fault: &TextFault,
    locator: &Locator,
) -> Result<(), NoMemory>
    ensures { (limits : Limits) (text : List ℕ) (reader : Progress) → StandsForRead limits reader text
        → StandsForLocated limits locator.now reader text → IsRefusal limits text fault.now
        → OnOk result ((bytes : List ℕ) × TellsToken text fault.now bytes
        × (out.new.items ≡ out.old.items ++ bytes)) }
{
    let TextFault::Refused { .. } = fault else {
        return Ok(());
    };
    let place = locator.place();
    push_number(out, b"  line ", place.line, b", column ")?;
    push_number(out, b"", place.column, b": ")?;
    push_shown(out, locator.token())?;
    Ok(out.extend_from_slice(b"\n")?)
}

/// Some words, the first read at which a version was seen that gives the edge, and this version.
fn push_sight(out: &mut Vec<u8>, before: &[u8], of: &Recorded, e: &Edge) -> Result<(), NoMemory>
    requires index { of.now.index.now ≡ of.now.history.now }
    requires acts { HasActs of.now.history.now (reader_of e.now.kind e.now.src e.now.dst) of.now.acts.now }
    requires edge { IsEdge of.now.history.now e.now }
    requires read { e.now.kind ≢ Ww }
    ensures { OnOk result ((words : List ℕ) × TellsSight of.now.history.now e.now words
        × (out.new.items ≡ out.old.items ++ before.now ++ words)) }
{
    let Some(sight) = first_sight(of.history, of.index, of.acts, e) else {
        return Ok(());
    };
    push_event(out, before, of.history, e.key, sight.place)?;
    let known = if let Kind::Wr = e.kind { e.src } else { 0 };
    push_unless(out, of, e.key, sight.version, known, (b"; ", b""))
}

fn push_events(out: &mut Vec<u8>, of: &Recorded, e: &Edge) -> Result<(), NoMemory>
    requires index { of.now.index.now ≡ of.now.history.now }
    requires acts { HasActs of.now.history.now (reader_of e.now.kind e.now.src e.now.dst) of.now.acts.now }
    requires edge { IsEdge of.now.history.now e.now }
    ensures { OnOk result ((words : List ℕ) × TellsEvents e.now.kind of.now.history.now e.now words
        × (out.new.items ≡ out.old.items ++ words)) }
{
    match e.kind {
        Kind::Ww => {
            push_version(out, b"", of, e.key, e.src)?;
            push_version(out, b"; ", of, e.key, e.dst)
        }
        Kind::Wr => {
            push_version(out, b"", of, e.key, e.src)?;
            push_sight(out, b"; ", of, e)
        }
        Kind::Rw => {
            push_sight(out, b"", of, e)?;
            push_version(out, b"; ", of, e.key, e.dst)
        }
    }
}

fn push_steps(
    alloc: Global,
    out: &mut Vec<u8>,
    of: &Recorded,
    edges: &[Edge],
) -> Result<(), NoMemory>
    requires index { of.now.index.now ≡ of.now.history.now }
    requires edges { All (IsEdge of.now.history.now) edges.now }
    ensures { OnOk result ((bytes : List ℕ) × TellsAll (TellsStep of.now.history.now) edges.now bytes
        × (out.new.items ≡ out.old.items ++ bytes)) }
{
    let readers = edges.iter().map(|e| reader_of_edge(e)).collect(alloc)?;
    let acts = acts_of(alloc, of.history, readers)?;
    let of = Recorded { acts: &acts, ..*of };
    for e in edges {
        let words = [
            Words::Text(b""),
            number(e.src),
            Words::Edge(e.kind, e.key),
            Words::Token(u64::from(e.dst)),
            Words::Text(b""),
        ];
        push_words(out, &words)?;
        push_events(out, &of, e)?;
        out.extend_from_slice(b"\n")?;
    }
    Ok(())
}

/// The names of bad reads, and behind them those of bad writes.
const NAMES: [&[u8]; 8] = [
    b"own write missed",
    b"aborted read",
    b"uncommitted read",
    b"future read",
    b"phantom",
    b"stale read",
    b"lost update",
    b"write conflict",
];

fn anomaly_words(name: Anomaly) -> &'static [u8]
    ensures { result.now ≡ reasons.anomaly_words name }
{
    NAMES[name as usize]
}

/// How many findings of each name there are.
pub(crate) fn push_counts(out: &mut Vec<u8>, of: &Recorded, j: &Judgement) -> Result<(), AllocError>
    requires index { of.now.index.now ≡ of.now.history.now }
    requires judgement { IsJudgement of.now.history.now j.now }
    requires acts { All (λ b. HasActs of.now.history.now b.second of.now.acts.now) j.now.bad_writes.items }
    ensures { OnOk result ((bytes : List ℕ) × TellsCounts of.now.history.now j.now.bad_reads.items
        j.now.bad_writes.items bytes × (out.new.items ≡ out.old.items ++ bytes)) }
{
    of.history.law();
    let mut counts = [0; 8];
    for b in &j.bad_reads {
        if let Some(info) = of.index.txn(b.txn) {
            let name = anomaly_of(of.history, of.index, b, info.start);
            counts[name as usize] += 1;
        }
    }
    for b in &j.bad_writes {
        counts[if loss_of(of, b).is_some() { 6 } else { 7 }] += 1;
    }
    let (mut before, mut end): (&[u8], &[u8]) = (b"  ", b"");
    for name in 0..8 {
        if counts[name] > 0 {
            push_number(out, before, counts[name], b" ")?;
            out.extend_from_slice(NAMES[name])?;
            (before, end) = (b", ", b"\n");
        }
    }
    out.extend_from_slice(end)
}

impl Finding for BadRead {
    ghost line = { lines.bad_read_line };

    ghost is_found = { λ of b. IsBadRead of.history.now b.place b.txn b.key b.saw b.due };

    ghost tells = { reasons.TellsBadRead };

    fn push_line(&self, out: &mut Vec<u8>) -> Result<(), AllocError> {
        let words = [
            number(self.place),
            number(self.txn),
            Words::Number(self.key),
            Words::Text(b"saw"),
            number(self.saw),
            Words::Text(b"due"),
            number(self.due),
        ];
        push_line(out, b"bad-read", &words)
    }

    fn push_reasons(&self, out: &mut Vec<u8>, of: &Recorded) -> Result<(), NoMemory> {
        of.history.law();
        let Some(info) = of.index.txn(self.txn) else {
            return Ok(());
        };
        let name = anomaly_of(of.history, of.index, self, info.start);
        out.extend_from_slice(b"  ")?;
        out.extend_from_slice(anomaly_words(name))?;
        push_event(out, b": ", of.history, self.key, self.place)?;
        push_start(out, b"; transaction ", self.txn, info.start, b"\n")?;
        push_unless(out, of, self.key, self.saw, 0, (b"  saw: ", b"\n"))?;
        push_unless(out, of, self.key, self.due, 0, (b"  due: ", b"\n"))
    }
}

impl Finding for BadWrite {
    ghost line = { lines.bad_write_line };

    ghost is_found = { λ of b. IsBadWrite of.history.now b.key b.first b.second
        × HasActs of.history.now b.second of.acts.now };

    ghost tells = { reasons.TellsBadWrite };

    fn push_line(&self, out: &mut Vec<u8>) -> Result<(), AllocError> {
        let words = [
            Words::Number(self.key),
            number(self.first),
            number(self.second),
        ];
        push_line(out, b"bad-write", &words)
    }

    fn push_reasons(&self, out: &mut Vec<u8>, of: &Recorded) -> Result<(), NoMemory> {
        of.history.law();
        let Some(info) = of.index.txn(self.second) else {
            return Ok(());
        };
        let (second, start) = (self.second, info.start);
        match loss_of(of, self) {
            Some(place) => {
                push_start(out, b"  lost update: transaction ", second, start, b"; ")?;
                push_event(out, b"", of.history, self.key, place)?;
            }
            None => push_start(out, b"  write conflict: transaction ", second, start, b"")?,
        }
        push_version(out, b"; ", of, self.key, self.first)?;
        push_unless(out, of, self.key, self.second, self.first, (b"; ", b"\n"))
    }
}

impl Finding for Unexplained {
    ghost line = { lines.unexplained_line };

    ghost is_found = { λ of u. IsUnexplained of.history.now u.place u.txn u.key u.saw };

    ghost tells = { reasons.TellsUnexplained };

    fn push_line(&self, out: &mut Vec<u8>) -> Result<(), AllocError> {
        let words = [
            number(self.place),
            number(self.txn),
            Words::Number(self.key),
            number(self.saw),
        ];
        push_line(out, b"unexplained", &words)
    }

    fn push_reasons(&self, out: &mut Vec<u8>, of: &Recorded) -> Result<(), NoMemory> {
        of.history.law();
        let bad = BadRead {
            place: self.place,
            txn: self.txn,
            key: self.key,
            saw: self.saw,
            due: of.index.due(self.txn, self.place, self.key),
        };
        bad.push_reasons(out, of)
    }
}
