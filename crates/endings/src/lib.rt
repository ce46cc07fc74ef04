// How a run ends.
#![tactic(auto)]

ghost use Rattle.std.specs.Prelude.{◌≡◌};
ghost use Rattle.endings.specs.Endings.{number_of};

// Document 01, "How a run ends". The first two are what a Halt gives.
#[derive(Clone, Copy, PartialEq, Eq, Debug)]
pub enum Ending {
    Normal = 0,
    StoppedByError = 1,
    BudgetSpent = 2,
    NoReadingLeft = 3,
    OutsideRange = 4,
    DivisionBy0 = 5,
    StackFull = 6,
    PrintDoesNotFit = 7,
    BadCode = 8,
}

// The paper's number of an ending.
pub fn number(e: Ending) -> u8
    ensures { result ≡ number_of e }
{
    e as u8
}
