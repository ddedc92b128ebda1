//! The lines of a report, and the words of a line. Lines of edges and pivots are made elsewhere, as they are given.
ghost use Rattle.std.specs.Prelude.{◌≡◌, [], ◌∷◌, ◌++◌, flat_map, map, OnOk, if◌then◌else◌, ◌&&◌, ℕ, List, All, IfSome};
ghost use Rattle.sia_events.specs.Text.{numeral};
ghost use Rattle.si_audit.specs.Spaced.{spaced, words_of};
ghost use Rattle.sia_parts.specs.Acts.{HasActs};
ghost use Rattle.sia_parts.specs.declared.reasons.Recorded.{Recorded};
ghost use Rattle.sia_graph.specs.Judgements.{IsJudgement};
ghost use Rattle.si_audit.specs.Explained.{TellsAll, WithReasons, TellsIf, PutsFront};
ghost use Rattle.sia_events.specs.declared.event.Event.{Event};
ghost use Rattle.si_audit.specs.Lines as lines;
ghost use Rattle.si_audit.specs.declared.report.Words.TheVariants as some;

use crate::explain::push_counts;
use sia_events::{Key, NoMemory, Reason, TextFault, TxnId, push_number};
use sia_graph::{Judgement, Pivot, Verdict};
use sia_index::Counts;
use sia_parts::{BadRead, BadWrite, Kind, Recorded};
use std::alloc::AllocError;

/// Some words of a line.
#[derive(Clone, Copy)]
pub(crate) enum Words<'a> {
    Text(&'a [u8]),
    Number(u64),
    /// The number of a token or of a transaction, and a colon.
    Token(u64),
    /// The edge of a step of a cycle.
    Edge(Kind, Key),
    Numbers(&'a [TxnId]),
    /// The transactions that commit first, behind the word `first`, if there are any.
    Firsts(&'a [TxnId]),
}

pub(crate) fn number(n: u32) -> Words<'static>
    ensures { words_of result ≡ numeral n ∷ [] }
{
    Words::Number(u64::from(n))
}

pub(crate) fn push_line(out: &mut Vec<u8>, first: &[u8], words: &[Words]) -> Result<(), AllocError>
    ensures { OnOk result (out.new.items ≡ out.old.items ++ lines.line
        (first.now ∷ flat_map words_of words.now)) }
{
    out.extend_from_slice(first)?;
    push_words(out, words)?;
    out.extend_from_slice(b"\n")
}

pub(crate) fn push_words(out: &mut Vec<u8>, words: &[Words]) -> Result<(), AllocError>
    ensures { OnOk result (out.new.items ≡ out.old.items ++ spaced (flat_map words_of words.now)) }
{
    for some in words {
        push_some(out, some)?;
    }
    Ok(())
}

fn push_some(out: &mut Vec<u8>, some: &Words) -> Result<(), AllocError>
    ensures { OnOk result (out.new.items ≡ out.old.items ++ spaced (words_of some.now)) }
{
    match some {
        Words::Text(text) => {
            out.extend_from_slice(b" ")?;
            out.extend_from_slice(text)
        }
        Words::Number(n) => push_number(out, b" ", *n, b""),
        Words::Token(n) => push_number(out, b" ", *n, b":"),
        Words::Edge(kind, key) => {
            out.extend_from_slice(b" >")?;
            out.extend_from_slice(kind_word(*kind))?;
            push_number(out, b":", *key, b">")
        }
        Words::Numbers(numbers) => push_numbers(out, numbers),
        Words::Firsts([]) => Ok(()),
        Words::Firsts(firsts) => {
            out.extend_from_slice(b" first")?;
            push_numbers(out, firsts)
        }
    }
}

fn push_numbers(out: &mut Vec<u8>, numbers: &[TxnId]) -> Result<(), AllocError>
    ensures { OnOk result (out.new.items ≡ out.old.items ++ spaced (map numeral numbers.now)) }
{
    for n in numbers {
        push_number(out, b" ", u64::from(*n), b"")?;
    }
    Ok(())
}

pub(crate) fn kind_word(kind: Kind) -> &'static [u8]
    ensures { result.now ≡ lines.kind_word kind }
{
    match kind {
        Kind::Ww => b"ww",
        Kind::Wr => b"wr",
        Kind::Rw => b"rw",
    }
}

fn reason_words(reason: Reason) -> &'static [u8]
    ensures { result.now ≡ lines.reason_words reason }
{
    match reason {
        Reason::TooManyEvents => b"too many events",
        Reason::BadEvent => b"bad event",
        Reason::BadNumber => b"number out of range",
        Reason::AlreadyEnded => b"transaction already ended",
        Reason::AlreadyBegun => b"transaction already begun",
        Reason::EmptyRange => b"empty range",
        Reason::BadList => b"bad list",
        Reason::NotWritten => b"version not written",
        Reason::BadStart => b"start too late",
    }
}

pub(crate) fn push_refusal(out: &mut Vec<u8>, fault: &TextFault) -> Result<(), AllocError>
    ensures { OnOk result (out.new.items ≡ out.old.items ++ lines.refusal_line fault.now) }
{
    match fault {
        TextFault::NoMemory => Ok(()),
        TextFault::TextTooLong => push_line(out, b"refused: text too long", &[]),
        TextFault::Refused { token, reason } => {
            let token = Words::Token(u64::from(*token));
            let reason = Words::Text(reason_words(*reason));
            push_line(out, b"refused: token", &[token, reason])
        }
    }
}

pub(crate) fn push_whether(
    out: &mut Vec<u8>,
    first: &[u8],
    holds: bool,
    yes: &[u8],
    no: &[u8],
) -> Result<(), AllocError>
    ensures { OnOk result (out.new.items ≡ out.old.items ++ lines.line
        (first.now ∷ (if holds then yes.now else no.now) ∷ [])) }
{
    push_line(out, first, &[Words::Text(if holds { yes } else { no })])
}

/// The order; or the transactions of a cycle, each with the edge from it to the next, and the first one, where it comes again.
pub(crate) fn push_verdict(out: &mut Vec<u8>, verdict: &Verdict) -> Result<(), AllocError>
    ensures { OnOk result (out.new.items ≡ out.old.items ++ lines.verdict_line verdict.now) }
{
    match verdict {
        Verdict::Order(order) => push_line(out, b"order", &[Words::Numbers(order.as_slice())]),
        Verdict::Cycle(steps) => {
            let steps = steps.as_slice();
            out.extend_from_slice(b"cycle")?;
            for s in steps {
                push_number(out, b" ", u64::from(s.txn), b" >")?;
                out.extend_from_slice(kind_word(s.kind))?;
                push_number(out, b":", s.key, b">")?;
            }
            if let Some(first) = steps.first() {
                push_number(out, b" ", u64::from(first.txn), b"")?;
            }
            out.extend_from_slice(b"\n")
        }
    }
}

/// What is found at a key: it has a line, and in an explained report reasons below.
pub(crate) trait Finding {
    ghost line: { Self → List ℕ };

    ghost is_found: { Recorded → Self → Type 0 };

    ghost tells: { List Event → Self → List ℕ → Type 0 };

    fn push_line(&self, out: &mut Vec<u8>) -> Result<(), AllocError>
        ensures { OnOk result (out.new.items ≡ out.old.items ++ line self.now) };

    fn push_reasons(&self, out: &mut Vec<u8>, of: &Recorded) -> Result<(), NoMemory>
        requires index { of.now.index.now ≡ of.now.history.now }
        requires found { is_found of.now self.now }
        ensures { OnOk result ((bytes : List ℕ) × tells of.now.history.now self.now bytes
            × (out.new.items ≡ out.old.items ++ bytes)) };
}

pub(crate) fn push_all<T: Finding>(
    out: &mut Vec<u8>,
    of: Option<&Recorded>,
    found: &[T],
) -> Result<(), NoMemory>
    requires index { IfSome of (λ of. of.now.index.now ≡ of.now.history.now) }
    requires found { IfSome of (λ of. All (T.is_found of.now) found.now) }
    ensures { OnOk result ((bytes : List ℕ) × TellsAll
        (WithReasons T.line (TellsIf of.entry T.tells)) found.now bytes
        × (out.new.items ≡ out.old.items ++ bytes)) }
{
    for x in found {
        x.push_line(out)?;
        if let Some(of) = of {
            x.push_reasons(out, of)?;
        }
    }
    Ok(())
}

pub(crate) fn push_head(
    out: &mut Vec<u8>,
    counts: &Counts,
    bad_reads: &[BadRead],
    bad_writes: &[BadWrite],
) -> Result<(), AllocError>
    ensures { OnOk result (out.new.items ≡ out.old.items
        ++ lines.events_line counts.now.events counts.now.committed counts.now.aborted counts.now.unfinished
        ++ lines.isolation_line (lines.is_empty bad_reads.now && lines.is_empty bad_writes.now)) }
{
    let words = [
        number(counts.events),
        Words::Text(b"committed"),
        number(counts.committed),
        Words::Text(b"aborted"),
        number(counts.aborted),
        Words::Text(b"open"),
        number(counts.unfinished),
    ];
    push_line(out, b"events", &words)?;
    let kept = bad_reads.is_empty() && bad_writes.is_empty();
    push_whether(out, b"isolation", kept, b"kept", b"broken")
}

/// The lines before those of the edges, with reasons from what was recorded, where it is given.
pub(crate) fn push_front(
    out: &mut Vec<u8>,
    of: Option<&Recorded>,
    j: &Judgement,
) -> Result<(), NoMemory>
    requires index { IfSome of (λ of. of.now.index.now ≡ of.now.history.now) }
    requires judgement { IfSome of (λ of. IsJudgement of.now.history.now j.now) }
    requires acts { IfSome of (λ of. All (λ b. HasActs of.now.history.now b.second of.now.acts.now)
        j.now.bad_writes.items) }
    ensures { OnOk result (PutsFront of.entry j.now out.old.items out.new.items) }
{
    push_head(out, &j.counts, &j.bad_reads, &j.bad_writes)?;
    if let Some(of) = of {
        push_counts(out, of, j)?;
    }
    push_all(out, of, &j.bad_reads)?;
    push_all(out, of, &j.bad_writes)?;
    push_all(out, of, &j.unexplained)
}

/// The lines behind those of the edges.
pub(crate) fn push_back(
    out: &mut Vec<u8>,
    pivots: &[Pivot],
    pass: bool,
    serializable: bool,
    verdict: &Verdict,
) -> Result<(), AllocError>
    ensures { OnOk result (out.new.items ≡ out.old.items
        ++ flat_map lines.pivot_line pivots.now ++ lines.ssi_line pass
        ++ lines.serializable_line serializable ++ lines.verdict_line verdict.now) }
{
    for p in pivots {
        let words = [
            number(p.txn),
            Words::Text(b"in"),
            Words::Numbers(p.ins.as_slice()),
            Words::Text(b"out"),
            Words::Numbers(p.outs.as_slice()),
            Words::Firsts(p.firsts.as_slice()),
        ];
        push_line(out, b"pivot", &words)?;
    }
    push_whether(out, b"ssi", pass, b"pass", b"fail")?;
    push_whether(out, b"serializable", serializable, b"yes", b"no")?;
    push_verdict(out, verdict)
}
