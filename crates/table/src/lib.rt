// The table of refusals: its rows as definitions in specs/, which the calls and the model cite, and the refusal that a row gives.
#![tactic(auto)]

ghost use Rattle.std.specs.Prelude.{◌≡◌};
ghost use Rattle.table.specs.Refused.{number};

// Why a call is refused, by the table's numbers.
#[derive(Clone, Copy, Debug, PartialEq, Eq)]
pub enum Refusal {
    PageSize = 1,
    Capacity = 2,
    AreaLength = 3,
    UpdateSize = 4,
    RegisterFull = 5,
    PagesFull = 6,
    NoSuchTicket = 7,
    OutOfTurn = 8,
    NoSuchPage = 9,
    AlreadyPut = 10,
    PageLength = 11,
    NotAllPut = 12,
    PastEnd = 13,
    BlobFull = 14,
    NodesFull = 15,
    NotPublished = 16,
    OutsideSnapshot = 17,
    BufferTooShort = 18,
    Damaged = 19,
    NoSuchLine = 20,
    LinesFull = 21,
    NoSuchMinute = 22,
    WrongWindow = 23,
    TooManyWindows = 24,
}

impl Refusal {
    // The number that the table gives it, by which C and the step program know it.
    pub fn number(self) -> u64
        ensures { result ≡ number self }
    {
        self as u64
    }
}
