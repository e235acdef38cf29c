// Why a call is refused, and this paper's number of each refusal.
ghost use Rattle.std.specs.Prelude.{◌≡◌};
ghost use Rattle.money.specs.Refusals.{number_of};

// One of 01's sixteen refusals, each with its number.
#[derive(Clone, Copy, PartialEq, Eq)]
pub enum Refusal {
    EndsEarly = 1,
    MarkUnknown = 2,
    HourOutside = 3,
    NameFault = 4,
    NumberOutside = 5,
    ListFault = 6,
    BeyondList = 7,
    BytesLeftOver = 8,
    Closed = 9,
    KeyStands = 10,
    NoSuchKey = 11,
    HourFull = 12,
    NoSpace = 13,
    NothingToTakeBack = 14,
    PriceMissing = 15,
    NotTogether = 16,
}

impl Refusal {
    // The definitions' word for what the enum declares.
    pub fn number(self) -> u8
        ensures { result ≡ number_of self }
    {
        self as u8
    }
}
