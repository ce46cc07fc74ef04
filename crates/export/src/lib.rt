// What C and Rust call. A slice passes as a pointer and a length, and a report is an array of numbers and no struct, as C reads them (include/o.h).
#![tactic(auto)]

ghost use Rattle.std.specs.Prelude.{◌≡◌, length};
ghost use Rattle.limits.specs.Limits.{the_limits};
ghost use Rattle.rules.specs.Machine.{whole_run};
ghost use Rattle.machine.specs.Promise.{lends};
ghost use Rattle.compiler.specs.Compiled.{Compiled, WithAnswer};
ghost use Rattle.export.specs.Reports.{RanInto, CompiledInto, RanTextInto, TidyInto};

// A text compiled into the table; the report is its number, place, instructions, cells and stack need, where a refusal has only the first two.
#[tactic(auto, using(crate::proofs::Numbers::compiled_into))]
#[unsafe(no_mangle)]
pub extern "C" fn o_compile(text: &[u8], table: &mut [i32], report: &mut [u64; 5])
    ensures { WithAnswer (Compiled the_limits text.entry.now (length table.old)) (CompiledInto (length table.old) report.new table.new) }
{
    *report = reports::of_answer(compiler::compile(text, table));
}

// A run of the table; the report is its ending, steps, readings used and output length.
#[tactic(auto, using(crate::proofs::Numbers::ran_into))]
#[unsafe(no_mangle)]
pub extern "C" fn o_run(
    text: &[u8],
    table: &[i32],
    readings: &[i32],
    budget: u32,
    stack: &mut [i32],
    out: &mut [u8],
    report: &mut [u64; 4],
)
    ensures { RanInto (whole_run (lends text.now table.now readings.now stack.old out.old) budget) stack.old out.old report.new stack.new out.new }
{
    *report = reports::of_run(machine::run(text, table, readings, budget, stack, out));
}

// A text compiled into the table, and its own code run. The report is the refusal's number and place; ending, steps, readings used and output length;
// and how many bytes of the output may be sent on to the feed. A refused text has 0 in the last five.
#[tactic(auto, using(crate::proofs::Numbers::text_ran_into))]
#[unsafe(no_mangle)]
pub extern "C" fn o_run_text(
    text: &[u8],
    readings: &[i32],
    budget: u32,
    table: &mut [i32],
    stack: &mut [i32],
    out: &mut [u8],
    report: &mut [u64; 7],
)
    ensures { WithAnswer (Compiled the_limits text.entry.now (length table.old)) (RanTextInto text.entry.now readings.now budget stack.old out.old (length table.old) report.new table.new stack.new out.new) }
{
    let came = kit::run_text(text, readings, budget, table, stack, out);
    *report = reports::of_text(came, out);
}

// A tidy copy of the text in the room, and zeros past it; the report is its number, place and length, where a refusal has no length.
#[tactic(auto, using(crate::proofs::Numbers::tidied_into))]
#[unsafe(no_mangle)]
pub extern "C" fn o_tidy(text: &[u8], room: &mut [u8], report: &mut [u64; 3])
    ensures { TidyInto the_limits text.entry.now (length room.old) report.new room.new }
{
    *report = tidy::numbers(tidy::tidy(text, room));
}
