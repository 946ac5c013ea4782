// Why a call refused: the reasons of R5.4 and R5.5, each with its number.
#![tactic(auto)]

ghost use Rattle.std.specs.Prelude.{◌≡◌};
ghost use Rattle.refusal.specs.Refusal.{number_of};

#[derive(Clone, Copy, PartialEq, Eq, Debug)]
pub enum Refusal {
    // from what the caller gives: R5.4
    BadConfig = 1,
    BundleLength = 2,
    ReservedBytes = 3,
    OtherDay = 4,
    SenderRange = 5,
    SeqRange = 6,
    SignerRange = 7,
    SenderUnsigned = 8,
    PayloadLength = 9,
    OutLength = 10,
    // from the node's records: R5.5
    RecordsLength = 20,
    MalformedRecord = 21,
    AlreadyDelivered = 22,
    OwnSignatureUnknown = 23,
    OtherPayload = 24,
    NoFreeSlot = 25,
    NotDelivered = 26,
    TooFewSetpoints = 27,
    SameNode = 28,
}

impl From<Refusal> for u32 {
    ghost from_gives = { λ reason number. number ≡ number_of reason };

    // The number of the reason.
    fn from(reason: Refusal) -> u32 {
        reason as u32
    }
}
