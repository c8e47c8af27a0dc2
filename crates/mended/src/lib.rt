// What the mender makes of a map (document 02, R-9): definitions and laws, no code. A map is read with 3 and 4 ignored, and written anew
// from its owned pieces with zone 0's cross check set (`Mended`); when that is refused (`Table`); what it leaves as it was (`Laws`). The
// contracts of crate `mend` say that its code does this.
#![tactic(auto)]

ghost use Rattle.mended.specs.Laws.{MendLaws};

// The laws of specs/Laws, as a contract: the function does nothing.
pub fn mend_laws()
    ensures { MendLaws }
{}
