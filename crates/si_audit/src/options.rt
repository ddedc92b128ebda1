//! The options: who audits which keys, which lines the report has, what the history is held against, and how long its text may be.
ghost use Rattle.std.specs.Prelude.{◌≡◌, ◌↔◌, ◌⊎◌, ℕ, ◌<◌, ◌≤◌, List, length, IfOk, OnOk, Err};
ghost use Rattle.sia_events.specs.Limits.{standard};
ghost use Rattle.sia_parts.specs.Parts.{IsCutting, HasTooManyCuts};
ghost use Rattle.si_audit.specs.Options.{Choices};

use sia_events::{Key, Limits};
use sia_parts::{CutFault, Part, cut};
use std::alloc::Global;
use std::marker::Model;

/// What a history must have kept for the status 0. What passes `Ssi` passes `Serializable`, that `Si`, and that `Gsi`.
#[derive(Clone, Copy, PartialEq, Eq)]
pub enum Level {
    /// Snapshot isolation, and some serial order replays the history.
    Serializable,
    /// Snapshot isolation, and in no dangerous structure does the last transaction commit first: the test of serializable
    /// snapshot isolation (Cahill, Röhm and Fekete 2008).
    Ssi,
    /// Snapshot isolation.
    Si,
    /// Generalized snapshot isolation (Elnikety, Zwaenepoel and Pedone 2005): each transaction has a snapshot that fits it.
    Gsi,
}

/// Which lines a report has.
#[derive(Clone, Copy, PartialEq, Eq)]
pub enum Form {
    /// All lines.
    Full,
    /// All but those of edges and pivots.
    Brief,
    /// Those of the brief report, with reasons.
    Explained,
}

/// How many workers audit which parts, the form of the report, the level that the status tells of, and the limits of a
/// text. Neither workers nor parts change the report or the status.
#[derive(Drop)]
pub struct Options {
    workers: u8,
    parts: Vec<Part>,
    form: Form,
    level: Level,
    limits: Limits,
}

impl Model for Options {
    ghost Value = { Choices };

    ghost view = { λ o. record {
      workers = o.workers;
      parts = o.parts.items;
      form = o.form;
      level = o.level;
      limits = o.limits;
    } };

    ghost invariant = { λ o. record {
      some_workers : 0 < o.workers;
      few_workers : o.workers ≤ 64;
      cutting : (points : List ℕ) × IsCutting points o.parts.items;
      few_parts : length o.parts.items ≤ 1024;
    } };
}

/// Why there are no such options.
#[derive(Clone, Copy, Debug, PartialEq, Eq)]
pub enum OptionsFault {
    /// No worker, or more than 64.
    Workers,
    /// More than 1,023 distinct cuts that aren't 0.
    TooManyCuts,
    /// A growth was refused.
    NoMemory,
}

impl Options {
    /// So many workers, and the parts between the cuts, for the full report, the level of serializable histories and the
    /// standard limits. The number of workers is judged before the cuts, and takes no memory.
    pub fn new(alloc: Global, workers: u8, cuts: &[Key]) -> Result<Options, OptionsFault>
        ensures made { IfOk result (λ o. (o.workers ≡ workers) × IsCutting cuts.now o.parts) }
        ensures usual { IfOk result (λ o. (o.form ≡ Form.Full) × (o.level ≡ Level.Serializable)) }
        ensures limits { IfOk result (λ o. o.limits ≡ standard) }
        ensures few { OnOk result (¬ HasTooManyCuts cuts.now) }
        ensures workers { (result ≡ Err OptionsFault.Workers) ↔ ((workers ≡ 0) ⊎ (64 < workers)) }
        ensures too_many { result ≡ Err OptionsFault.TooManyCuts → HasTooManyCuts cuts.now }
    {
        if workers == 0 || workers > 64 {
            return Err(OptionsFault::Workers);
        }
        match cut(alloc, cuts) {
            Ok(parts) => Ok(Options {
                workers,
                parts,
                form: Form::Full,
                level: Level::Serializable,
                limits: Limits::standard(),
            }),
            Err(CutFault::TooMany) => Err(OptionsFault::TooManyCuts),
            Err(CutFault::NoMemory) => Err(OptionsFault::NoMemory),
        }
    }

    /// The same for a report of this form.
    pub fn with_form(self, form: Form) -> Options
        ensures { result ≡ record self { form = form } }
    {
        Options { form, ..self }
    }

    /// The same for this level.
    pub fn with_level(self, level: Level) -> Options
        ensures { result ≡ record self { level = level } }
    {
        Options { level, ..self }
    }

    /// The same for texts within these limits.
    pub fn with_limits(self, limits: Limits) -> Options
        ensures { result ≡ record self { limits = limits } }
    {
        Options { limits, ..self }
    }

    /// The form of the report.
    pub fn form(&self) -> Form
        ensures { result ≡ self.now.form }
    {
        self.form
    }

    /// The level that the status tells of.
    pub fn level(&self) -> Level
        ensures { result ≡ self.now.level }
    {
        self.level
    }

    /// How long a text may be.
    pub fn limits(&self) -> Limits
        ensures { result ≡ self.now.limits }
    {
        self.limits
    }

    /// How many workers there are.
    pub fn workers(&self) -> u8
        ensures workers { result ≡ self.now.workers }
        ensures bounds { (0 < result) × (result ≤ 64) }
    {
        self.workers
    }

    /// The parts of the keys, ascending.
    pub fn parts(&self) -> &[Part]
        ensures parts { result.now ≡ self.now.parts }
        ensures cutting { (points : List ℕ) × IsCutting points result.now }
        ensures few { length result.now ≤ 1024 }
    {
        self.parts.as_slice()
    }
}
