//! What holds of every span.

ghost use Rattle.interval_eval.specs.Laws.{SpansNest, NestedSpansStay};

/// A span over ranges that lie in wider ones lies in the span over these.
#[tactic(auto, using(crate::proofs::Nesting::nested))]
pub fn spans_nest()
    ensures { SpansNest }
{}

/// No node's span over ranges leaves the range where none over wider ones does.
#[tactic(auto, using(crate::proofs::SpanLaws::nested_spans_stay_in_range))]
pub fn nested_spans_stay()
    ensures { NestedSpansStay }
{}
