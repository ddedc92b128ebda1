//! The engine: a text goes in, a report comes out, and it knows no device.
ghost use Rattle.std.specs.Prelude.{◌≡◌, ◌+◌, ◌<◌, ◌≤◌, ◌++◌, ℕ, List, [], ⊤, flat_map, length, IfOk, IfSome, IsSome, MatchOption, OnOk, IsFalse, IsTrue, ◌↔◌};
ghost use Rattle.sia_events.specs.Limits.{Limits};
ghost use Rattle.si_audit.specs.Options.{Choices};
ghost use Rattle.si_audit.specs.Engine.{AreLinesOf, EndsFed, HasText, IsFed, TellsFed, IsReceived, IsReportOf, IsOutcomeOf};
ghost use Rattle.si_audit.specs.Left.{IsYet, bytes_left};
ghost use Rattle.si_audit.specs.Account.{account_with};
ghost use Rattle.si_audit.specs.Lines as lines;
ghost use Rattle.si_audit.specs.Report.{TellsRefusal};
ghost use Rattle.si_audit.specs.Outcomes.{Meets};
ghost use Rattle.sia_events.specs.declared.event.Event.{Event};
ghost use Rattle.sia_events.specs.Refusals.{IsRefusal};
ghost use Rattle.sia_events.specs.Streaming.{Progress};
ghost use Rattle.sia_events.specs.declared.fault.TextFault.{TextFault};
ghost use Rattle.si_audit.specs.declared.options.Form.{Form};
ghost use Rattle.sia_graph.specs.Judgements.{IsJudgement};
ghost use Rattle.sia_parts.specs.Gathering.{IsGathering};
ghost use Rattle.sia_parts.specs.Accesses.{AreAccesses};

use crate::answer::{Answer, Found, Report};
use crate::audit::{found_in, parts_for};
use crate::crew::{Alone, Crew, InThreads};
use crate::edge_lines::EdgeLines;
use crate::explain::{explained, push_place};
use crate::giving::{Giving, give_told};
use crate::options::{Form, Level, Options};
use crate::pivot_lines::PivotLines;
use crate::report::{push_back, push_front, push_refusal};
use crate::sheet::{ROOM, SHEET, Sheet};
use crate::snapshots::is_generalized;
use crate::spelled::Spelled;
use sia_events::{Locator, Log, NoMemory, TextFault, TextReader};
use sia_graph::{Judgement, Pivot, judge, listing_law};
use sia_index::make::index_log;
use sia_index::{Index, counted};
use sia_parts::{Accesses, Edge, Gathering, Ordered};
use std::alloc::Global;
use std::mem::take;
use std::sync::Wait;
use std::thread::Threads;

/// How a run ended that met no fault.
#[derive(Clone, Copy, PartialEq, Eq)]
pub enum Outcome {
    /// The history meets the level.
    Clean,
    /// It falls short of the level.
    Faulty,
    /// The text is no history.
    Refused,
}

/// Audits a text that comes in pieces, by options.
#[derive(Drop)]
pub struct Auditor<'a> {
    options: &'a Options,
    text: TextReader,
    locator: Locator,
}

impl<'a> Auditor<'a> {
    /// An auditor that has been fed nothing. It keeps the allocator for its later calls, and takes no memory yet.
    pub fn new(alloc: Global, options: &'a Options) -> Auditor<'a>
        ensures { IsFed options.now.limits options.now result [] }
    {
        Auditor {
            options,
            text: TextReader::with_limits(alloc, options.limits()),
            locator: Locator::new(),
        }
    }

    /// Takes the next piece of the text, cut anywhere. After an `Err` no report comes.
    pub fn feed(&mut self, piece: &[u8]) -> Result<(), NoMemory>
        ensures { OnOk result ((limits : Limits) (o : Choices) (text : List ℕ) → IsFed limits o self.old text
            → IsFed limits o self.new (text ++ piece.now)) }
    {
        self.text.feed(piece)?;
        if self.options.form() == Form::Explained {
            self.locator.feed(piece, self.text.refused());
        }
        Ok(())
    }

    /// What the text comes to, by a crew.
    fn finish_by<C: Crew>(self, alloc: Global, crew: &C) -> Result<Answer, NoMemory>
        requires { C.ready crew.now }
        ensures report { IfOk result (TellsFed self.entry) }
        ensures outcome { IfOk result (EndsFed self.entry) }
    {
        match self.text.finish_log() {
            Ok(log) => report_of(crew, alloc, log, self.options),
            Err(fault) => match &fault {
                TextFault::NoMemory => Err(NoMemory),
                _ => report_of_refusal(alloc, &fault, &self.locator, self.options),
            },
        }
    }

    /// What the text comes to, in the form and at the level of the options. The calling thread finds it, and the call returns.
    pub fn finish_alone(self, alloc: Global) -> Result<Answer, NoMemory>
        ensures report { IfOk result (TellsFed self.entry) }
        ensures outcome { IfOk result (EndsFed self.entry) }
    {
        self.finish_by(alloc, &Alone)
    }

    /// The same by as many workers as the options say. Where they name no cut and much was read, the keys are cut evenly. It waits,
    /// so nothing promises that it returns.
    pub fn finish<R: Threads + Wait + Sync>(self, rt: &R, alloc: Global) -> Result<Answer, NoMemory>
        ensures report { IfOk result (TellsFed self.entry) }
        ensures outcome { IfOk result (EndsFed self.entry) }
    {
        let workers = self.options.workers();
        if workers == 1 {
            return self.finish_alone(alloc);
        }
        self.finish_by(alloc, &InThreads { rt, workers })
    }
}

impl Answer {
    /// The report, of which nothing is shown yet. It takes all the memory that it needs.
    pub fn report(&self, alloc: Global) -> Result<Report<'_>, NoMemory>
        ensures { IfOk result (λ report. (bytes : List ℕ) → HasText self.now bytes → IsYet report bytes) }
    {
        let (front, back) = (&*self.front, &*self.back);
        let Some(found) = &self.found else {
            return Ok(Report {
                shown: &[],
                sheet: Sheet::with_size(alloc, ROOM)?,
                front,
                edges: None,
                pivots: None,
                back,
            });
        };
        let edges = Giving::of(alloc, EdgeLines::of(found))?;
        let pivots = Giving::of(alloc, PivotLines::of(alloc, found)?)?;
        Ok(Report {
            shown: &[],
            sheet: Sheet::with_size(alloc, SHEET)?,
            front,
            edges: Some(edges),
            pivots: Some(pivots),
            back,
        })
    }
}

impl Report<'_> {
    /// Makes the next piece, and answers whether there is one. Takes no memory.
    pub fn advance(&mut self) -> bool
        ensures gives { (bytes : List ℕ) → IsYet self.old bytes → (rest : List ℕ)
            × (bytes ≡ self.new.piece ++ rest) × IsYet self.new rest }
        ensures end { IsFalse result → (bytes : List ℕ) → IsYet self.old bytes → bytes ≡ [] }
        ensures some { IsTrue result → 0 < length self.new.piece }
        ensures fewer { IsTrue result → bytes_left self.new < bytes_left self.old }
    {
        self.shown = take(&mut self.front);
        if !self.shown.is_empty() {
            return true;
        }
        if give_told(&mut self.edges, &mut self.sheet) {
            return true;
        }
        if give_told(&mut self.pivots, &mut self.sheet) {
            return true;
        }
        self.shown = take(&mut self.back);
        !self.shown.is_empty()
    }

    /// The piece.
    pub fn piece(&self) -> &[u8]
        ensures { result.now ≡ self.now.piece }
    {
        if self.shown.is_empty() {
            return self.sheet.text();
        }
        self.shown
    }
}

/// Whether the history of which this is the judgement meets the level, if the judgement tells it.
fn meets(j: &Judgement, level: Level) -> Option<bool>
    ensures { (h : List Event) → IsJudgement h j.now
        → MatchOption result (level ≡ Level.Gsi) (λ meets. IsTrue meets ↔ Meets level h) }
{
    match level {
        Level::Serializable => Some(j.is_kept() && j.serializable),
        Level::Ssi => Some(j.pass),
        Level::Si => Some(j.is_kept()),
        Level::Gsi => None,
    }
}

/// How the run of a history ends that meets the level, or doesn't.
fn outcome_where(meets: bool) -> Outcome
    ensures { (level : Level) (h : List Event) → IsTrue meets ↔ Meets level h → IsOutcomeOf level h result }
{
    if meets {
        Outcome::Clean
    } else {
        Outcome::Faulty
    }
}

/// The report of the history of a log, in the form asked for, and the outcome at the level. Makes no edge.
fn report_of<C: Crew>(crew: &C, alloc: Global, log: Log, o: &Options) -> Result<Answer, NoMemory>
    requires { C.ready crew.now }
    ensures report { IfOk result (λ a. (bytes : List ℕ) × IsReportOf o.now.form log bytes × HasText a bytes) }
    ensures outcome { IfOk result (λ a. IsOutcomeOf o.now.level log a.outcome) }
{
    let index = index_log(alloc, &log)?;
    let parts = parts_for(alloc, &log, o, crew.workers())?;
    let found = found_in(crew, alloc, &log, &index, &parts)?;
    report_of_found(alloc, log, index, found, o)
}

/// The log, if the form or the level asks for it. Else what the verdict is found with takes the memory where it stood.
fn kept(log: Log, o: &Options) -> Option<Log>
    ensures same { IfSome result (λ kept. kept ≡ log) }
    ensures explained { o.now.form ≡ Form.Explained → IsSome result }
    ensures generalized { o.now.level ≡ Level.Gsi → IsSome result }
{
    if o.form() == Form::Explained || o.level() == Level::Gsi {
        return Some(log);
    }
    None
}

fn report_of_found(
    alloc: Global,
    log: Log,
    index: Index,
    found: Gathering,
    o: &Options,
) -> Result<Answer, NoMemory>
    requires index { index ≡ log }
    requires found { IsGathering index found }
    ensures report { IfOk result (λ a. (bytes : List ℕ) × IsReportOf o.now.form log bytes × HasText a bytes) }
    ensures outcome { IfOk result (λ a. IsOutcomeOf o.now.level log a.outcome) }
{
    let counts = counted(&log);
    let log = kept(log, o);
    let (judgement, accesses) = judge(alloc, counts, &index, found)?;
    let outcome = outcome_of(alloc, log.as_ref(), &index, &judgement, o.level())?;
    report_in(alloc, o.form(), outcome, log, index, &judgement, accesses)
}

/// How the run of a history ends at the level.
fn outcome_of(
    alloc: Global,
    log: Option<&Log>,
    ix: &Index,
    j: &Judgement,
    level: Level,
) -> Result<Outcome, NoMemory>
    requires log { IfSome log (λ log. log.now ≡ ix.now) }
    requires kept { level ≡ Level.Gsi → IsSome log }
    requires judgement { IsJudgement ix.now j.now }
    ensures { IfOk result (IsOutcomeOf level ix.now) }
{
    let meets = match meets(j, level) {
        Some(meets) => meets,
        None => is_generalized(alloc, log.unwrap(), ix, j)?,
    };
    Ok(outcome_where(meets))
}

/// The report of a judgement in one form.
fn report_in(
    alloc: Global,
    form: Form,
    outcome: Outcome,
    log: Option<Log>,
    index: Index,
    j: &Judgement,
    accesses: Accesses,
) -> Result<Answer, NoMemory>
    requires log { IfSome log (λ log. log ≡ index) }
    requires kept { form ≡ Form.Explained → IsSome log }
    requires judgement { IsJudgement index j.now }
    requires accesses { AreAccesses index (λ _. ⊤) accesses }
    ensures report { IfOk result (λ a. (bytes : List ℕ) × IsReportOf form index bytes × HasText a bytes) }
    ensures outcome { IfOk result (λ a. a.outcome ≡ outcome) }
{
    match form {
        Form::Full => in_full(alloc, outcome, j, index, accesses),
        Form::Brief => in_brief(alloc, outcome, j, index),
        Form::Explained => {
            let sheet = explained(alloc, &log.unwrap(), &index, j, &accesses)?;
            Ok(one_sheet(alloc, outcome, sheet))
        }
    }
}

fn in_full(
    alloc: Global,
    outcome: Outcome,
    j: &Judgement,
    index: Index,
    accesses: Accesses,
) -> Result<Answer, NoMemory>
    requires judgement { IsJudgement index j.now }
    requires accesses { AreAccesses index (λ _. ⊤) accesses }
    ensures report { IfOk result (λ a. (bytes : List ℕ) × IsReportOf Form.Full index bytes × HasText a bytes) }
    ensures outcome { IfOk result (λ a. a.outcome ≡ outcome) }
{
    index.law();
    listing_law();
    let ordered = Ordered::of(alloc, &index, &accesses)?;
    drop(accesses);
    let spelled = Spelled::of(alloc, &index)?;
    let found = Found {
        index,
        ordered,
        spelled,
    };
    told(alloc, outcome, j, Some(found))
}

fn in_brief(alloc: Global, outcome: Outcome, j: &Judgement, ix: Index) -> Result<Answer, NoMemory>
    requires { IsJudgement ix j.now }
    ensures report { IfOk result (λ a. (bytes : List ℕ) × IsReportOf Form.Brief ix bytes × HasText a bytes) }
    ensures outcome { IfOk result (λ a. a.outcome ≡ outcome) }
{
    ix.law();
    listing_law();
    drop(ix);
    told(alloc, outcome, j, None)
}

/// The report of a judgement, with the lines of edges and of pivots that are made from what was found.
fn told(
    alloc: Global,
    outcome: Outcome,
    j: &Judgement,
    found: Option<Found>,
) -> Result<Answer, NoMemory>
    ensures report { IfOk result (λ a. (form : Form) (es : List Edge) (ps : List Pivot) (middle : List ℕ)
        → AreLinesOf found middle
        → middle ≡ flat_map lines.edge_line (lines.told form es)
        ++ flat_map lines.pivot_line (lines.told form ps)
        → HasText a (lines.report_text form (account_with j.now es ps))) }
    ensures outcome { IfOk result (λ a. a.outcome ≡ outcome) }
{
    let mut front = Vec::new(alloc);
    push_front(&mut front, None, j)?;
    let mut back = Vec::new(alloc);
    push_back(&mut back, &[], j.pass, j.serializable, &j.verdict)?;
    Ok(Answer {
        outcome,
        front,
        found,
        back,
    })
}

/// A report on one sheet.
fn one_sheet(alloc: Global, outcome: Outcome, front: Vec<u8>) -> Answer
    ensures text { HasText result front.items }
    ensures outcome { result.outcome ≡ outcome }
{
    Answer {
        outcome,
        front,
        found: None,
        back: Vec::new(alloc),
    }
}

fn report_of_refusal(
    alloc: Global,
    fault: &TextFault,
    locator: &Locator,
    o: &Options,
) -> Result<Answer, NoMemory>
    ensures report { (limits : Limits) (bytes : List ℕ) (reader : Progress)
        → IsReceived limits (o.now.form ≡ Form.Explained) locator.now reader bytes
        → IsRefusal limits bytes fault.now
        → IfOk result (λ a. (report : List ℕ) × TellsRefusal o.now.form bytes fault.now report × HasText a report) }
    ensures outcome { IfOk result (λ a. a.outcome ≡ Outcome.Refused) }
{
    let mut sheet = Vec::new(alloc);
    push_refusal(&mut sheet, fault)?;
    if let Form::Explained = o.form() {
        push_place(&mut sheet, fault, locator)?;
    }
    Ok(one_sheet(alloc, Outcome::Refused, sheet))
}
