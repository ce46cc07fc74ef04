// The operations, by number. Constants and no enum: the way back from a number would be a second list of the nineteen, and `decode` would
// tell the operations apart twice in one step.
pub const HALT: i32 = 1;

pub const PUSH_INT: i32 = 2;

pub const LOAD_STACK: i32 = 3;

pub const STORE_STACK: i32 = 4;

pub const JUMP: i32 = 5;

pub const JUMP_IF_FALSE: i32 = 6;

pub const PLUS: i32 = 7;

pub const MINUS: i32 = 8;

pub const TIMES: i32 = 9;

pub const DIVIDE: i32 = 10;

pub const EQUALS: i32 = 11;

pub const SMALLER: i32 = 12;

pub const GREATER: i32 = 13;

pub const NEGATE: i32 = 14;

pub const NOT: i32 = 15;

pub const READ: i32 = 16;

pub const PRINT_INT: i32 = 17;

pub const PRINT_STR: i32 = 18;

pub const PRINT_STR_LN: i32 = 19;
