// The code table, written a pair at a time as far as it has room; a need; and what is answered of a text once its code is known.
#![tactic(auto)]

ghost use Rattle.std.specs.Prelude.{◌≡◌, [], ◌∷◌, ◌+◌, min, max, pos};
ghost use Rattle.instruction.specs.Instructions.{halt, jump_if_false, encode};
ghost use Rattle.tables.specs.inner.Tables.{put, operand_of, opening};
ghost use Rattle.tables.specs.inner.Settled.{settled_by};

use base::{Refusal, Refused};
use instruction::operations;
use limits::Limits;

// ---- the table

// A pair of the table, if the table has that place.
#[tactic(auto, unfolding(crate::specs::inner::Tables::put))]
pub fn put(table: &mut [i32], n: usize, operation: i32, operand: i32)
    ensures { table.new ≡ put table.old n (operation ∷ operand ∷ []) }
{
    if n < table.len() / 2 {
        table[n * 2] = operation;
        table[n * 2 + 1] = operand;
    }
}

// One `PushInt 0` for each cell.
#[tactic(auto, using(crate::proofs::Stores::emit_on, crate::proofs::Stores::emit_out), unfolding(instruction::specs::Instructions::encode, crate::specs::inner::Tables::opening))]
pub fn put_cells(table: &mut [i32], cells: usize)
    ensures { table.new ≡ opening cells table.old }
{
    for i in 0..cells {
        put(table, i, operations::PUSH_INT, 0);
    }
}

// The `Halt 0` that ends a Program's code.
#[tactic(auto, unfolding(instruction::specs::Instructions::encode))]
pub fn put_halt(table: &mut [i32], n: usize)
    ensures { table.new ≡ put table.old n (encode (halt 0) []) }
{
    put(table, n, operations::HALT, 0);
}

// A number as an operand, if an operand can hold it.
#[tactic(auto, unfolding(crate::specs::inner::Tables::operand_of))]
pub fn operand(n: usize) -> i32
    ensures { result ≡ pos (operand_of n) }
{
    i32::try_from(n).unwrap_or(0)
}

// The jump past a body whose condition is false.
#[tactic(auto, unfolding(instruction::specs::Instructions::encode))]
pub fn put_jump_if_false(table: &mut [i32], n: usize, to: usize)
    ensures { table.new ≡ put table.old n (encode (jump_if_false (operand_of to)) []) }
{
    put(table, n, operations::JUMP_IF_FALSE, operand(to));
}

// ---- the stack need

// The need of a two-sided form: the larger of the left need and 1 + the right need, as far as numbers go.
pub fn two_sided_need(left: usize, right: usize) -> usize
    ensures { result ≡ min (max left (1 + right)) 18446744073709551615 }
{
    left.max(right.saturating_add(1))
}

// ---- the answer

// What is reported of an accepted text.
#[derive(Clone, Copy, PartialEq, Eq, Debug)]
pub struct Counts {
    pub instructions: usize,
    pub cells: usize,
    // Its stack need.
    pub need: usize,
}

// What a whole Program comes to, whose Command's code ends at a place: the leftmost refusal of a name, too much code, or its counts.
#[tactic(auto, unfolding(crate::specs::inner::Settled::settled_by))]
pub fn settled(
    cells: usize,
    code: usize,
    need: usize,
    fault: Option<Refused>,
) -> Result<Counts, Refused>
    ensures { result ≡ settled_by Limits.INSTRUCTIONS cells code need fault }
{
    if let Some(refused) = fault {
        return Err(refused);
    }
    let size = cells.saturating_add(code).saturating_add(1);
    if Limits::INSTRUCTIONS < size {
        return Err(Refused {
            why: Refusal::TooMuchCode,
            place: 0,
        });
    }
    Ok(Counts {
        instructions: size,
        cells,
        need,
    })
}
