// Why a call is refused, and under which number and with which value that is answered.
#![tactic(auto)]

ghost use Rattle.std.specs.Prelude.{◌≡◌};
ghost use Rattle.refusals.specs.Numbers.{number_of, value_of};

// The refusals of the calls, in the order of their numbers.
#[derive(Clone, Copy, Debug, PartialEq, Eq)]
pub enum Refusal {
    // A number of the record is out of range.
    NumberOutOfRange,
    // A buffer has not the length that the record implies.
    BufferLength,
    // More entries or pairs than the record has room for.
    LengthAboveRoom,
    // Key 0, or above 2,147,483,647.
    NotAKey,
    // Define of a key that is held, with the value held.
    AlreadyDefined(u32),
    // Define with every place of the queue taken.
    QueueFull,
    // Find, change or remove of a key that is not held.
    NotFound,
    // Settle with more steps than the limit.
    AboveStepLimit,
    // Check of a store that is not sound.
    NotSound,
}

impl Refusal {
    // The fixed number.
    pub fn number(self) -> u32
        ensures { result ≡ number_of self }
    {
        match self {
            Refusal::NumberOutOfRange => 1,
            Refusal::BufferLength => 2,
            Refusal::LengthAboveRoom => 3,
            Refusal::NotAKey => 4,
            Refusal::AlreadyDefined(_) => 5,
            Refusal::QueueFull => 6,
            Refusal::NotFound => 7,
            Refusal::AboveStepLimit => 8,
            Refusal::NotSound => 9,
        }
    }

    // The answered value: 0, but for the value held.
    pub fn value(self) -> u32
        ensures { result ≡ value_of self }
    {
        match self {
            Refusal::AlreadyDefined(held) => held,
            _ => 0,
        }
    }
}
