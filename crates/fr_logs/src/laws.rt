//! The laws of logs: each clause is a law of `specs/Laws.antt`, proved. The function does nothing.

ghost use Rattle.fr_logs.specs.Laws.{EachHasPlace, LogsShowTheEnd};

/// If logs are one run, each entry of each log has a place in that run. It is legal there, and what its worker wrote
/// down before it and after it comes before it and after it in the run. The logs alone show where the run ends:
/// whoever merges them into a run finds the same counts.
pub fn logs_law()
    ensures place { EachHasPlace }
    ensures end { LogsShowTheEnd }
{}
