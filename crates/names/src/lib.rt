// How a scope is held: what is visible at a place of a text, and the cells of its names, in a list of numbers: five counts, and then four for each declaration: the place of its name, the place after it, its cell, and its block.
// The entries are numbers and not structs: `with_is`, `declared_given` and the theorems beside them say what is done to this list, and they stand.
#![tactic(auto)]

// The counts of a scope.
#[derive(Clone, Copy, PartialEq, Eq, Debug, Default)]
pub struct Scope {
    // The declarations still visible: so many of the list.
    pub visible: usize,
    // How many the text has had so far, which is what refusal 7 counts.
    pub declared: usize,
    // The cell that the next one gets.
    pub next_cell: usize,
    // How many cells there are so far.
    pub cells: usize,
    // How many blocks are open.
    pub blocks: usize,
}

// Numbers that the counts take at the head of the list.
pub const COUNTS: usize = 5;

// Numbers that a declaration takes.
pub const ENTRY: usize = 4;
