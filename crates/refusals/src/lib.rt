// Why a call is refused: one name for each number from 2 on that is answered (docs/NUMBERS.md). 0 answers that it was taken, and 1 that the last block
// was given again.

#![tactic(auto)]

ghost use Rattle.std.specs.Prelude.{◌≡◌};
ghost use Rattle.refusals.specs.Refusals.{refusal_number, number_of};

#[derive(Clone, Copy, Debug, PartialEq, Eq)]
pub enum Refusal {
    BlockEmpty = 2,
    BlockOver512 = 3,
    OutputShort = 4,
    NumberNeither = 5,
    OtherSamples = 6,
    TakeFull = 7,
    ScaleOutOfRange = 8,
    RecordOutOfRange = 9,
    LineUnreadable = 10,
    EpsOutOfRange = 11,
    DecayOutOfRange = 12,
    FloorOutOfRange = 13,
    ChannelOutOfRange = 14,
    ModeUnknown = 15,
    RateUnknown = 16,
    StoreWithoutRoom = 17,
    IntervalOutOfRange = 18,
    TooManyVoices = 19,
    NotRiffWave = 20,
    NoFmt = 21,
    FmtWrong = 22,
    NoData = 23,
    RunsPast = 24,
    NoRoom = 25,
    NoGoodFmt = 26,
    NoDataReached = 27,
    TooManyTakes = 28,
    FileTooLong = 29,
    NoMidiFile = 30,
    FormatUnknown = 31,
    DivisionWrong = 32,
    EndsEarly = 33,
    WithinAnEvent = 34,
    QuantityTooLong = 35,
    NoRunningStatus = 36,
    StatusWithin = 37,
    UnknownStatus = 38,
    TempoWrong = 39,
    TrackTooLong = 40,
}

impl Refusal {
    // The number that it is answered by.
    pub fn number(self) -> u32
        ensures { result ≡ refusal_number self }
    {
        self as u32
    }
}

// The number that a call is answered which has no more to say: 0 where it was taken.
pub fn number(answer: Result<(), Refusal>) -> u32
    ensures { result ≡ number_of answer }
{
    match answer {
        Ok(()) => 0,
        Err(refusal) => refusal.number(),
    }
}
