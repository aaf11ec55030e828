ghost use Rattle.std.specs.Prelude.{◌≡◌, is_ok, IsOkUnless};

// Why a command is refused, in the order of the papers' table: its numbers 4 to 17.
#[derive(Clone, Copy, PartialEq, Eq)]
pub enum Refusal {
    // The record is malformed.
    Record,
    // No op has this number.
    Op,
    // A field lies outside its op's list.
    Fields,
    // The FIFO that is read holds no timestamp.
    NoTimestamp,
    // The words are no TIME.
    Time,
    // The words are no amount, or PERIOD's zero byte is not 0.
    Amount,
    // The adjustment has no cycles.
    NoCycles,
    // An adjustment waits already.
    Waiting,
    // N of the interval is not below D.
    Interval,
    // The generator is running.
    Running,
    // The start lies before the time shown.
    Past,
    // The time would pass the last second.
    TimeOver,
    // The correctionField has no room for the departure time.
    FieldFull,
    // The correctionField holds no departure time.
    NoDeparture,
}

impl Refusal {
    ghost use Rattle.change.specs.Refusals.{number_of};

    // Its number in the table.
    pub fn number(self) -> u64
        ensures { result ≡ number_of self }
    {
        match self {
            Refusal::Record => 4,
            Refusal::Op => 5,
            Refusal::Fields => 6,
            Refusal::NoTimestamp => 7,
            Refusal::Time => 8,
            Refusal::Amount => 9,
            Refusal::NoCycles => 10,
            Refusal::Waiting => 11,
            Refusal::Interval => 12,
            Refusal::Running => 13,
            Refusal::Past => 14,
            Refusal::TimeOver => 15,
            Refusal::FieldFull => 16,
            Refusal::NoDeparture => 17,
        }
    }
}

// One line of the table: the refusal, unless the test holds.
#[inline]
pub fn ensure(holds: bool, refusal: Refusal) -> Result<(), Refusal>
    ensures passed { is_ok result ≡ holds }
    ensures refused { IsOkUnless result refusal }
{
    if holds { Ok(()) } else { Err(refusal) }
}
