// What a claim takes of holes when no single one is long enough (document 02, R-8): definitions and laws, no code. `Taken` has the request's words:
// the holes sorted, and taken from the front. `Threshold` has what takes the same of the holes as they stand on the map, in passes over them.
#![tactic(auto)]

ghost use Rattle.split.specs.Laws.{SplitLaws};

// What is taken, when nothing is, and that both forms take the same.
pub fn split_laws()
    ensures { SplitLaws }
{}
