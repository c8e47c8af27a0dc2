// What is drawn on a blank disc (document 02, R-13): definitions and laws, no code. The record that the disc is given (`Blank`), the pieces of
// objects 2 and 1 and the map drawn from them (`Drawn`), when that is refused (`Table`), and what holds of it (`Laws`). The contracts of crate
// `format` say that its code does this.
#![tactic(auto)]

ghost use Rattle.formatted.specs.Laws.{FormatLaws};

// The laws of specs/Laws, as a contract: the function does nothing.
pub fn format_laws()
    ensures { FormatLaws }
{}
