// Why something is refused. The numbers are those of the table of refusals (docs/PROTOCOL.md), which the programs print.
ghost use Rattle.std.specs.Prelude.{◌≡◌};
ghost use Rattle.distances.specs.Refusal.{number};

#[derive(Clone, Copy, PartialEq, Eq)]
pub enum Refusal {
    CutShort = 1,
    UnknownTag = 2,
    WrongLength = 3,
    OutOfPlace = 4,
    BridgeCount = 5,
    TooManyLinks = 6,
    WrongEnds = 7,
    TooManyViews = 8,
    CostTooHigh = 9,
    NotThere = 10,
    NotOnLink = 11,
    AlreadySo = 12,
    EndDown = 13,
    QueueFull = 14,
    NoMessage = 15,
    NumbersUsedUp = 16,
    OutOfRange = 17,
    PlanTooLong = 18,
}

impl Refusal {
    pub fn number(self) -> u8
        ensures { result ≡ number self }
    {
        self as u8
    }
}
