//! Findings of worked histories, of audited parts, and the same edges from what was seen.
ghost use Rattle.std.specs.Prelude.{◌≡◌, ⊤, IfOk};
ghost use Rattle.std.specs.List.{AllZip};
ghost use Rattle.sia_parts.specs.Accesses.{AreAccesses};
ghost use Rattle.sia_parts.specs.Dealing.{AreReads};
ghost use Rattle.sia_parts.specs.Findings.{ArePartFindings};
ghost use Rattle.sia_parts.specs.Gathering.{IsPartFound};
ghost use Rattle.sia_parts.specs.Parts.{IsInPart};

use super::histories::{HISTORIES, MANY_MISSED, MORE, More, NOTHING_MORE, Worked};
use crate::*;
use sia_events::{History, Key, NoMemory, read_history};
use sia_index::Index;
use sia_index::make::index;
use std::alloc::Global;
use std::fmt::Write;
use std::test::*;

// What is found in each part, in order: with edges, and with what was seen.
fn found_in_parts(
    alloc: Global,
    h: &History,
    ix: &Index,
    reads: &Reads,
    parts: &[Part],
) -> Result<(Vec<PartFindings>, Vec<PartFound>), NoMemory>
    requires index { ix.now ≡ h.now }
    requires reads { AreReads h.now parts.now reads.now }
    ensures { IfOk result (λ (audited, seen). AllZip (ArePartFindings h.now) parts.now audited.items
        × AllZip (λ part found. IsPartFound h.now (IsInPart part) found) parts.now seen.items) }
{
    let mut audited = Vec::new(alloc);
    let mut seen = Vec::new(alloc);
    for i in 0..parts.len() {
        let audit = audit_part(alloc, h, ix, parts[i])?;
        audited.push(audit)?;
        let found = find_in_part(alloc, h.log(), ix, parts[i], reads.of_part(i))?;
        seen.push(found)?;
    }
    Ok((audited, seen))
}

fn edges_of(alloc: Global, edges: &[Edge], more: &More<'_>) -> Result<Vec<Edge>, NoMemory> {
    let mut all = Vec::new(alloc);
    all.extend_from_slice(edges)?;
    for (first, end, step) in more.edges {
        let mut key = first.key;
        for dst in first.dst..*end {
            all.push(Edge { dst, key, ..*first })?;
            key = key.wrapping_add(*step);
        }
    }
    Ok(all)
}

fn are_findings(found: &Findings, edges: &[Edge], it: &Worked<'_>) -> bool {
    found.bad_reads.as_slice() == it.bad_reads
        && found.bad_writes.as_slice() == it.bad_writes
        && found.unexplained.as_slice() == it.unexplained
        && found.edges.as_slice() == edges
}

// What each transaction saw stands in any order, and a position may stand twice.
fn are_accesses(alloc: Global, found: &Accesses, it: &More<'_>) -> Result<bool, NoMemory> {
    let mut is_so = it.saw.is_empty() || found.saw.len() == it.saw.len();
    for (txn, (positions, misses)) in it.saw.iter().enumerate() {
        if txn >= found.saw.len() || txn >= found.missed.len() {
            return Ok(false);
        }
        let mut saw = Vec::from_slice(alloc, found.saw.at(txn))?;
        saw.sort_unstable();
        saw.dedup();
        is_so &= saw.as_slice() == *positions && found.missed.at(txn) == *misses;
    }
    Ok(is_so)
}

// Whether all that is wanted is found, with these edges, part by part of the cutting and gathered, and the same edges at all keys at once.
fn is_found(
    alloc: Global,
    h: &History,
    ix: &Index,
    points: &[Key],
    edges: &[Edge],
    it: &Worked<'_>,
    more: &More<'_>,
) -> Result<bool, Fail>
    requires { ix.now ≡ h.now }
{
    ix.law();
    let parts = cut(alloc, points)?;
    let reads = Reads::of(alloc, h.log(), &parts)?;
    let (audited, seen) = found_in_parts(alloc, h, ix, &reads, &parts)?;
    let findings = gather(alloc, audited)?;
    let gathering = Gathering::of(alloc, ix, seen)?;
    let committed = ix.committed();
    let is_so = are_findings(&findings, edges, it)
        && (more.committed.is_empty() || committed == more.committed)
        && are_accesses(alloc, &gathering.accesses, more)?;
    Ok(is_so && edges_at(alloc, ix, &gathering.accesses, None)?.as_slice() == edges)
}

// The same, cut in each of the ways, and in the single parts.
fn is_told(
    alloc: Global,
    h: &History,
    ix: &Index,
    it: &Worked<'_>,
    more: &More<'_>,
) -> Result<bool, Fail>
    requires { ix.now ≡ h.now }
{
    let edges = edges_of(alloc, it.edges, more)?;
    let mut is_so = true;
    for points in it.cuttings {
        is_so &= is_found(alloc, h, ix, points, &edges, it, more)?;
    }
    for (part, edges) in more.parts {
        let found = audit_part(alloc, h, ix, *part)?;
        is_so &= found.edges.as_slice() == *edges
            && found.bad_reads.is_empty()
            && found.bad_writes.is_empty()
            && found.unexplained.is_empty();
    }
    Ok(is_so)
}

// The same, of the text.
fn is_worked(alloc: Global, text: &[u8], it: &Worked<'_>, more: &More<'_>) -> Result<bool, Fail> {
    let history = read_history(alloc, text)?;
    let index = index(alloc, &history)?;
    is_told(alloc, &history, &index, it, more)
}

#[test]
fn histories(rt: HostRuntime) -> Result<(), Fail> {
    for (i, it) in HISTORIES.iter().enumerate() {
        assert!(rt;
            is_worked(rt.alloc(), it.text, it, NOTHING_MORE)?,
            "history {i}"
        );
    }
    Ok(())
}

#[test]
fn histories_and_more(rt: HostRuntime) -> Result<(), Fail> {
    for (i, (it, more)) in MORE.iter().enumerate() {
        assert!(rt; is_worked(rt.alloc(), it.text, it, more)?, "history {i}");
    }
    let mut text = String::from_str(rt.alloc(), "b1")?;
    for i in 2..1002 {
        write!(text, " w{i}[{i}] c{i}")?;
    }
    text.push_str(" r1[0..18446744073709551615] c1")?;
    let (it, more) = MANY_MISSED;
    assert!(rt; is_worked(rt.alloc(), text.as_bytes(), it, more)?);
    Ok(())
}
