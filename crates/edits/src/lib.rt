#![tactic(auto)]

// The calls that edit, as definitions and laws; no code. On the pieces of a disc: what an edit does to pieces and cross checks (`Edits`), the
// holes between pieces (`Holes`), when a call is refused and what it takes or gives (`Judge`). On the bytes of a map: a map written from
// its pieces (`Written`), what each call answers and leaves (`Steps`), and the maps that edits work on (`Editable`). The writer and the
// calls stand on this; what is claimed of them in the papers' words is crate `runs`.
