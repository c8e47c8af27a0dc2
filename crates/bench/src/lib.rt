// Document 01's bench examples: one table of questions and answers (specs/Table), and one statement over it. And what the examples
// shut out: programs that refuse always, answer always the same or write nothing, and sweeps that write everywhere (specs/Empty). And
// what the calls' promises come to in the table's numbers (specs/Tells).
#![tactic(auto)]

ghost use Rattle.std.specs.Prelude.{◌≡◌, map};
ghost use Rattle.bench.specs.Table.{table, answered, expected};
ghost use Rattle.bench.specs.MendTable.{mend_table};
ghost use Rattle.bench.specs.FormatTable.{format_table};
ghost use Rattle.bench.specs.Empty.{EmptyPrograms};
ghost use Rattle.bench.specs.Tells.{AnswersTold};

// Every row of the table is answered as document 01 has it, as a contract: the function does nothing.
pub fn bench_examples()
    ensures { map answered table ≡ map expected table }
{}

// Maps that are mended, and those that are not, in rows of our own (specs/MendTable): as a contract, the function does nothing.
pub fn mend_examples()
    ensures { map answered mend_table ≡ map expected mend_table }
{}

// Discs that are formatted, and those that are not (specs/FormatTable): as a contract, the function does nothing.
pub fn format_examples()
    ensures { map answered format_table ≡ map expected format_table }
{}

// No empty program meets the contracts, as a contract: the function does nothing.
pub fn empty_programs()
    ensures { EmptyPrograms }
{}

// What each call tells and leaves, as a contract: the function does nothing.
pub fn answers_told()
    ensures { AnswersTold }
{}
