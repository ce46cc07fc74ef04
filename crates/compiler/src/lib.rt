// The compiler: a text judged, and its code written into a lent table.
#![tactic(auto)]

mod command;
mod expression;
mod naming;
mod operator;
mod walk;

ghost use Rattle.std.specs.Prelude.{◌≡◌, ◌≤◌, length};
ghost use Rattle.limits.specs.Limits.{the_limits};
ghost use Rattle.compiler.specs.Answers.{answered, Compiles};
ghost use Rattle.compiler.specs.Compiled.{Judged, Compiled, WithAnswer};
ghost use Rattle.compiler.specs.inner.Measured.{Measured, Written};
ghost use Rattle.compiler.specs.inner.Walks.{SetOut, ReadsProgram};

use base::{Refusal, Refused};
use lexeme::Fixed;
use limits::Limits;
use tables::Counts;
use walk::{Read, Walk};

// DO, one Command, the end; the Command's code begins at a place.
fn program(
    text: &[u8],
    names: &mut [usize],
    table: &mut [i32],
    code: usize,
) -> Result<Read, Refused>
    requires { SetOut text.now names.old code }
    ensures { ReadsProgram Limits.NESTING text.now names.old table.old code result names.new table.new }
{
    let w = Walk::start(code).advance(text)?;
    let x = w.expect(text, Fixed::Do)?;
    let r = command::command(Limits::NESTING, text, names, table, x)?;
    if !r.walk.is_ahead(Fixed::End) {
        return Err(r.walk.refused_ahead(Refusal::NoProgram));
    }
    Ok(r)
}

// Numbers that a text's scope takes.
const NAMES: usize = names::COUNTS + Limits::DECLARATIONS * names::ENTRY;

// What the sentences decide. Nothing is written: the table holds no pair.
fn measured(text: &[u8], names: &mut [usize; NAMES]) -> Result<Counts, Refused>
    requires { length text.now ≤ Limits.TEXT }
    ensures { Measured Limits.NESTING Limits.DECLARATIONS Limits.INSTRUCTIONS text.now result }
{
    scopes::start(names);
    let r = program(text, names, &mut [], 0)?;
    let cells = scopes::counts(names).cells;
    tables::settled(cells, r.walk.code, cells + r.need, r.walk.fault)
}

// A text's answer, whatever table there is, over a lent list.
fn judged(text: &[u8], names: &mut [usize; NAMES]) -> Result<Counts, Refused>
    ensures { WithAnswer (Judged the_limits text.entry.now) (λ a. result ≡ answered a) }
{
    if scan::too_long(text) {
        return Err(Refused {
            why: Refusal::TooLong,
            place: 0,
        });
    }
    scan::scan(text)?;
    measured(text, names)
}

// That, with a list of its own.
pub fn judge(text: &[u8]) -> Result<Counts, Refused>
    ensures { WithAnswer (Judged the_limits text.entry.now) (λ a. result ≡ answered a) }
{
    let mut names = [0usize; NAMES];
    judged(text, &mut names)
}

// The code of a text that has so many cells.
fn write(text: &[u8], names: &mut [usize; NAMES], table: &mut [i32], cells: usize)
    requires { (length text.now ≤ Limits.TEXT) × (cells ≤ Limits.INSTRUCTIONS) }
    ensures { Written Limits.NESTING Limits.DECLARATIONS text.now cells table.old table.new }
{
    scopes::start(names);
    tables::put_cells(table, cells);
    if let Ok(r) = program(text, names, table, cells) {
        tables::put_halt(table, r.walk.code);
    }
}

// Judged; then the table's room; then written. One list serves both passes: a second would be 8 KB more of native stack.
pub fn compile(text: &[u8], table: &mut [i32]) -> Result<Counts, Refused>
    ensures { WithAnswer (Compiled the_limits text.entry.now (length table.old)) (Compiles (length table.old) result table.new) }
{
    base::clear(table);
    let mut names = [0usize; NAMES];
    let counts = judged(text, &mut names)?;
    if table.len() / 2 < counts.instructions {
        return Err(Refused {
            why: Refusal::TooMuchCode,
            place: 0,
        });
    }
    write(text, &mut names, table, counts.cells);
    Ok(counts)
}
