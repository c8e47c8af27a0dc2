// The model of a map: definitions and laws, no code. Fragments, the free chain, the rules of document 01, the check of
// a map computed, pieces and object order, the drawing of a zone. The code of the crates above is proved to do what
// these definitions say; the functions here do nothing and carry laws as their contracts.
#![tactic(auto)]

ghost use Rattle.model.specs.Table.{CheckIsTable};
ghost use Rattle.model.specs.Drawing.{DrawingLaws};

// The check of a map, computed, says what the table of refusals says, for every list of bytes.
pub fn check_is_table()
    ensures { CheckIsTable }
{}

// A drawing is read back, and a zone in which no two free fragments touch is a drawing.
pub fn drawing_laws()
    ensures { DrawingLaws }
{}
