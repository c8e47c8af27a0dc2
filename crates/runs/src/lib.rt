// Runs of calls: what each call that edits does to the bytes of a map, and demand 3. Definitions and laws, no code; the contracts of
// release, place and claim say that the code does the steps defined here, so the theorem below is about the code.
#![tactic(auto)]

ghost use Rattle.runs.specs.Demand3.{Demand3};
ghost use Rattle.runs.specs.EditTable.{EditTable};
ghost use Rattle.runs.specs.EditRules.{EditRules};

// Demand 3 whole: steps, undo, and every run.
pub fn demand_3()
    ensures { Demand3 }
{}

// Which refusal release, place and claim give exactly when, in the table's order, and what they answer where none is given.
pub fn edit_table()
    ensures { EditTable }
{}

// What the table does not say: 12's test is its rules, in which order a claim tries the zones, how many bits it takes and in which list, and 14 is never
// told.
pub fn edit_rules()
    ensures { EditRules }
{}
