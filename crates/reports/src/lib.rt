// What came of a text: what may be sent on to the feed, and what is reported in numbers. The numbers are arrays and not structs, since C reads them as such.
#![tactic(auto)]

ghost use Rattle.std.specs.Prelude.{◌≡◌};
ghost use Rattle.reports.specs.Reports.{sendable, answer_numbers, run_numbers, text_numbers};

use base::Refused;
use machine::Report;
use tables::Counts;

// What may be sent on to the feed: the output of a run with ending 0, and of no other.
#[tactic(auto, unfolding(crate::specs::Reports::sendable))]
pub fn to_send(ending: u8, length: usize, out: &[u8]) -> &[u8]
    ensures { result.now ≡ sendable ending length out.now }
{
    match ending {
        0 => out.get(..length).unwrap_or(&[]),
        _ => &[],
    }
}

// Of an answer: number, place, instructions, cells and stack need, where a refusal has only the first two.
#[tactic(auto, unfolding(crate::specs::Reports::answer_numbers))]
pub fn of_answer(a: Result<Counts, Refused>) -> [u64; 5]
    ensures { result ≡ answer_numbers a }
{
    match a {
        Err(r) => [base::number(r.why) as u64, r.place as u64, 0, 0, 0],
        Ok(c) => [0, 0, c.instructions as u64, c.cells as u64, c.need as u64],
    }
}

// Of a run: ending, steps, readings used and output length.
pub fn of_run(r: Report) -> [u64; 4]
    ensures { result ≡ run_numbers r }
{
    [
        r.ending as u64,
        r.steps as u64,
        r.used as u64,
        r.length as u64,
    ]
}

// Of a text compiled and run: the refusal's number and place; ending, steps, readings used and output length; and how many bytes of the output may be
// sent on to the feed. A refused text has 0 in the last five.
#[tactic(auto, unfolding(crate::specs::Reports::text_numbers))]
pub fn of_text(came: Result<Report, Refused>, out: &[u8]) -> [u64; 7]
    ensures { result ≡ text_numbers came out.now }
{
    match came {
        Err(r) => [base::number(r.why) as u64, r.place as u64, 0, 0, 0, 0, 0],
        Ok(ran) => {
            let [ending, steps, used, length] = of_run(ran);
            let sent = to_send(ran.ending, ran.length, out);
            [0, 0, ending, steps, used, length, sent.len() as u64]
        }
    }
}
