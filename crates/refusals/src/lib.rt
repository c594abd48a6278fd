// The refusals of document 01 ("Numbers given back"), and the number that the C interface gives for each.
#![tactic(auto)]

ghost use Rattle.std.specs.Prelude.{◌≡◌};
ghost use Rattle.refusals.specs.Numbers.{number_of, outcome_number};

// What a call is refused for, by document 01's number.
#[derive(Clone, Copy, Debug, PartialEq, Eq)]
pub enum Refusal {
    TableLayout = 1,
    Layout = 2,
    NotPermitted = 3,
    PastMaximum = 4,
    NoRoom = 5,
    NoRow = 6,
    OtherUse = 7,
    WrappedLength = 8,
    WrongTag = 9,
    SessionSpent = 10,
    CounterRunsOver = 11,
}

impl Refusal {
    pub fn number(self) -> u8
        ensures { result ≡ number_of self }
    {
        self as u8
    }
}

// The number of an answer: 0, or the refusal's.
pub fn number(outcome: Result<(), Refusal>) -> u8
    ensures { result ≡ outcome_number outcome }
{
    match outcome {
        Ok(()) => 0,
        Err(refusal) => refusal.number(),
    }
}
