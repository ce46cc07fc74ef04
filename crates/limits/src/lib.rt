// The numbers of document 01, three of them as T-04 of document 02 set them. Each stands here and nowhere else: code and contracts read it from here.
#![tactic(auto)]

#[derive(Drop)]
pub struct Limits {}

impl Limits {
    // Bytes of a text: refusal 1.
    pub const TEXT: usize = 49152;

    // Letters and digits of a name, letters of a class name: refusal 3.
    pub const WORD: usize = 32;

    // Bytes between a string's quotes: refusal 3.
    pub const STRING: usize = 255;

    // The value of a literal: refusal 3.
    pub const LITERAL: u32 = 2147483647;

    // Nestings open at once: refusal 5.
    pub const NESTING: usize = 32;

    // Declarations of a text: refusal 7.
    pub const DECLARATIONS: usize = 256;

    // Instructions of a text's code: refusal 8.
    pub const INSTRUCTIONS: usize = 8192;

    // Cells of stack that a card's run may need: refusal 24 of document 02, T-06.
    pub const NEED: usize = 512;
}

// What the paper's second program gives a run.
#[derive(Drop)]
pub struct Station {}

impl Station {
    // Steps that a run may take.
    pub const BUDGET: u32 = 1000000;

    // Bytes of its output room.
    pub const ROOM: usize = 4096;

    // Readings taken from the input, at most.
    pub const READINGS: usize = 4096;
}
