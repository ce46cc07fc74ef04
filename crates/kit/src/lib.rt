// What users call: a text compiled and run.
#![tactic(auto)]

ghost use Rattle.std.specs.Prelude.{◌≡◌, length};
ghost use Rattle.limits.specs.Limits.{the_limits};
ghost use Rattle.compiler.specs.Compiled.{Compiled, WithAnswer};
ghost use Rattle.kit.specs.Kit.{OutcomeOf};

use base::Refused;
use machine::Report;

// Compiles a text and runs its own code, which is the counted pairs of the table and no more.
#[tactic(auto, using(crate::proofs::Comes::room, crate::proofs::Comes::comes_refused, crate::proofs::Comes::comes_ran))]
pub fn run_text(
    text: &[u8],
    readings: &[i32],
    budget: u32,
    table: &mut [i32],
    stack: &mut [i32],
    out: &mut [u8],
) -> Result<Report, Refused>
    ensures { WithAnswer (Compiled the_limits text.entry.now (length table.old)) (OutcomeOf text.entry.now readings.now budget stack.old out.old (length table.old) result table.new stack.new out.new) }
{
    let counts = compiler::compile(text, table)?;
    let own_code = &table[..counts.instructions * 2];
    Ok(machine::run(text, own_code, readings, budget, stack, out))
}
