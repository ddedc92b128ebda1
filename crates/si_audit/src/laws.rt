//! Laws over the definitions of a report.
ghost use Rattle.std.specs.Prelude.{◌≤◌, List, ℕ};
ghost use Rattle.sia_events.specs.Limits.{Limits, greatest, AreWithin};
ghost use Rattle.sia_events.specs.declared.event.Event.{Event};
ghost use Rattle.sia_events.specs.Refusals.{IsWellFormed};
ghost use Rattle.si_audit.specs.Laws.{CleanLaw, FormsLaw, HasOneReport, HidesGsi, LevelsLaw, LinesLaw, PlainTextLaw, SnapshotsLaw};
ghost use Rattle.si_audit.specs.Report.{HasSameReport, OneReport};
ghost use Rattle.si_audit.specs.declared.options.Form.{Form};

/// Does nothing. Each clause is a law.
pub fn laws_hold()
    // A text has one report of each form at most: whatever bytes are a report of it are the same bytes.
    ensures one_report { (limits : Limits) → AreWithin limits greatest → (form : Form) (text : List ℕ)
        → OneReport limits form text }
    // A text that is accepted under some limits has the same report under all greater ones.
    ensures same_report { (form : Form) (text : List ℕ) → HasSameReport form text }
    // What meets the level `ssi` meets `serializable`, what meets `serializable` meets `si`, and what meets `si` meets `gsi`.
    ensures levels_law { (h : List Event) → IsWellFormed h → LevelsLaw h }
    ensures levels_law_of_texts { (limits : Limits) → AreWithin limits greatest → (text : List ℕ)
        → CleanLaw limits text }
    // Which snapshots fit a transaction, and what that has to do with isolation.
    ensures snapshots_law { (h : List Event) → IsWellFormed h → SnapshotsLaw h }
    // The brief report is what is left of the full one, and of the explained one, without some of their lines.
    ensures forms_law { (limits : Limits) (text : List ℕ) → FormsLaw limits text }
    // Off a report of any form it can be read how the run of its text ends at each level.
    ensures lines_law { (limits : Limits) (form : Form) (text : List ℕ) → LinesLaw limits form text }
    // But off a full or a brief report it can't be read how the run ends at the level `gsi`.
    ensures gsi_law { (limits : Limits) → 5 ≤ limits.events → 30 ≤ limits.bytes → HidesGsi limits }
    // A text without named starts, its starts and its report are what they would be if no event could name a start.
    ensures plain_text_law { (limits : Limits) (form : Form) (text : List ℕ) → PlainTextLaw limits form text }
    // Each text has exactly one report of each form: the report is a function of the text.
    ensures reports_law { (limits : Limits) → AreWithin limits greatest → (form : Form) (text : List ℕ)
        → HasOneReport limits form text }
{}
