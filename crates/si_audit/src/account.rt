//! What the audit of a history found, and its report.
ghost use Rattle.std.specs.Prelude.{◌≡◌, IfOk};
ghost use Rattle.si_audit.specs.Account.{account_of};
ghost use Rattle.si_audit.specs.Lines as lines;
ghost use Rattle.si_audit.specs.Report.{CanBePrinted};

use crate::options::Form;
use crate::report::{Words, kind_word, number, push_all, push_back, push_head, push_line};
use sia_events::NoMemory;
use sia_graph::{Pivot, Verdict};
use sia_index::Counts;
use sia_parts::Findings;
use std::alloc::Global;

/// All that the audit of a history found.
#[derive(Drop)]
pub struct Audit {
    pub events: u32,
    pub committed: u32,
    pub aborted: u32,
    /// How many transactions are open.
    pub unfinished: u32,
    pub findings: Findings,
    /// Every pivot, ascending by transaction.
    pub pivots: Vec<Pivot>,
    /// Whether the test of serializable snapshot isolation is passed.
    pub pass: bool,
    /// Whether some serial order of the committed transactions replays the history.
    pub serializable: bool,
    /// The least order of the committed transactions that keeps every edge, or a cycle of edges.
    pub verdict: Verdict,
}

/// The lines of the full report.
pub fn report(alloc: Global, a: &Audit) -> Result<Vec<u8>, NoMemory>
    requires { CanBePrinted (account_of a.now) }
    ensures { IfOk result (λ bytes. bytes.items ≡ lines.report_text Form.Full (account_of a.now)) }
{
    let counts = Counts {
        events: a.events,
        committed: a.committed,
        aborted: a.aborted,
        unfinished: a.unfinished,
    };
    let found = &a.findings;
    let mut out = Vec::new(alloc);
    push_head(&mut out, &counts, &found.bad_reads, &found.bad_writes)?;
    push_all(&mut out, None, &found.bad_reads)?;
    push_all(&mut out, None, &found.bad_writes)?;
    push_all(&mut out, None, &found.unexplained)?;
    for e in &found.edges {
        let words = [
            number(e.src),
            Words::Text(kind_word(e.kind)),
            number(e.dst),
            Words::Number(e.key),
        ];
        push_line(&mut out, b"edge", &words)?;
    }
    push_back(&mut out, &a.pivots, a.pass, a.serializable, &a.verdict)?;
    Ok(out)
}
