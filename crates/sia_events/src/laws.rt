//! Laws of texts and histories.
ghost use Rattle.std.specs.Prelude.{List, ℕ};
ghost use Rattle.sia_events.specs.declared.event.Event.{Event};
ghost use Rattle.sia_events.specs.Refusals.{IsAccepted, IsWellFormed};
ghost use Rattle.sia_events.specs.Text.{canonical};
ghost use Rattle.sia_events.specs.Limits.{Limits, greatest, AreWithin};
ghost use Rattle.sia_events.specs.Anomalies.{AnomalyLaw};
ghost use Rattle.sia_events.specs.Laws.{CanonicalLaw, GreaterLimitsAccept, HasHistory, NamedStartsOnlyAdd, NarrowLaw, OneHistory, OneRefusal, RoundTrip, UnwrittenLaw};

/// Does nothing. Each clause is a law.
pub fn laws_hold()
    // A text has one refusal at most.
    ensures one_refusal { (limits : Limits) (text : List ℕ) → OneRefusal limits text }
    // A text stands for one history at most.
    ensures one_history { (text : List ℕ) → OneHistory text }
    // An accepted text stands for a history, which is well-formed.
    ensures accepted_text_has_a_history { (limits : Limits) (text : List ℕ) → AreWithin limits greatest
        → HasHistory limits text }
    // What is accepted under some limits is accepted under all greater ones.
    ensures greater_limits_accept { (text : List ℕ) → GreaterLimitsAccept text }
    // A canonical text stands for its history and for no other, and no text of the history is shorter.
    ensures canonical_law { (h : List Event) → CanonicalLaw h }
    // What is read from the canonical text of a history is that history, under all limits that accept it.
    ensures round_trip { (limits : Limits) (h : List Event) → IsAccepted limits (canonical h)
        → RoundTrip limits h }
    // A key that no write event names has no entry in a verdict.
    ensures unwritten_law { (h : List Event) → IsWellFormed h → UnwrittenLaw h }
    // What is accepted without named starts is accepted with them, as the same history. What is refused is refused alike,
    // unless its faulty token has the form of a named start.
    ensures named_starts_only_add { (limits : Limits) (text : List ℕ) → NamedStartsOnlyAdd limits text }
    // Narrow edges have the closure of all edges: they lead from one transaction to another in one or more steps exactly if
    // edges do. So any edges will do that include the narrow ones.
    ensures narrow_law { (h : List Event) → IsWellFormed h → NarrowLaw h }
    // Each bad read has exactly one name, and a read that no serial order explains is a bad read, so that it has one too.
    ensures anomaly_law { (h : List Event) → IsWellFormed h → AnomalyLaw h }
{}
