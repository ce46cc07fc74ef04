// The lines of a code table, added to a page that is lent.
#![tactic(auto)]

ghost use Rattle.std.specs.Prelude.{◌≤◌, ◌*◌, ◌/◌, length};
ghost use Rattle.lines.specs.Added.{Added};
ghost use Rattle.pairs.specs.Pairs.{instruction_line, table_lines};

use lines::{put_byte, put_natural, put_spaced};

// `PLACE OPERATION OPERAND`, of a pair of a code table.
fn instruction(page: &mut [u8], at: usize, place: usize, operation: i32, operand: i32) -> usize
    ensures added { Added (instruction_line place operation operand) page.old at page.new result }
    ensures short { length (instruction_line place operation operand) ≤ 65 }
{
    let a = put_natural(page, at, place as u64);
    let b = put_spaced(page, a, operation);
    let c = put_spaced(page, b, operand);
    put_byte(page, c, b'\n')
}

// A line for each pair of a code table.
pub fn instructions(page: &mut [u8], at: usize, table: &[i32]) -> usize
    ensures added { Added (table_lines table.now) page.old at page.new result }
    ensures short { length (table_lines table.now) ≤ length table.now / 2 * 65 }
{
    let mut next = at.min(page.len());
    for (place, pair) in table.chunks_exact(2).enumerate() {
        next = instruction(page, next, place, pair[0], pair[1]);
    }
    next
}
