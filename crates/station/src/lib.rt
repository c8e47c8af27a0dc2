// A station that has edited a map in memory and writes it over the disc's two copies (document 02, R-5): what it may count on where it is
// cut off. Theorems alone; no call stands on them.
#![tactic(auto)]

ghost use Rattle.station.specs.Laws.{StationLaws};

// The laws of specs/Laws, as a contract: the function does nothing.
pub fn station_laws()
    ensures { StationLaws }
{}
