// Why a call is refused, and the kinds of damage, in the order of their numbers.
ghost use Rattle.std.specs.Prelude.{◌≡◌};
ghost use Rattle.types.specs.Refusals.{kind_of, number_of, told_by};

// What is wrong with a damaged heap. Kind 6 went with request U9.
#[derive(Clone, Copy, Debug, PartialEq, Eq)]
pub enum Damage {
    EndOnFree = 1,
    OpenEnd = 2,
    Unaligned = 3,
    DanglingReference = 4,
    WrongCount = 5,
    StrayData = 7,
}

impl Damage {
    // The kind as the value of reply number 2 tells it.
    pub fn kind(self) -> usize
        ensures { result ≡ kind_of self }
    {
        self as usize
    }
}

// The names are those of the header's numbers.
#[derive(Clone, Copy, Debug, PartialEq, Eq)]
pub enum Refusal {
    Misshapen,
    Damaged(Damage),
    BadSize,
    BadRoot,
    NoChunk,
    NoObject,
    BadCell,
    BadReference,
    NoCall,
    CutOff,
    StaleSections,
    WrongKind,
    BadMarks,
    OutOfTurn,
    ShortReason,
    ShortShape,
    NoPlace,
    ShortReplies,
    BadRun,
}

impl Refusal {
    pub fn number(self) -> usize
        ensures { result ≡ number_of self }
    {
        match self {
            Refusal::Misshapen => 1,
            Refusal::Damaged(_) => 2,
            Refusal::BadSize => 3,
            Refusal::BadRoot => 4,
            Refusal::NoChunk => 5,
            Refusal::NoObject => 6,
            Refusal::BadCell => 7,
            Refusal::BadReference => 8,
            Refusal::NoCall => 9,
            Refusal::CutOff => 10,
            Refusal::StaleSections => 11,
            Refusal::WrongKind => 12,
            Refusal::BadMarks => 13,
            Refusal::OutOfTurn => 14,
            Refusal::ShortReason => 15,
            Refusal::ShortShape => 16,
            Refusal::NoPlace => 17,
            Refusal::ShortReplies => 18,
            Refusal::BadRun => 19,
        }
    }

    // The value that is told beside the number: the damage kind, or 0.
    pub fn value(self) -> usize
        ensures { result ≡ told_by self }
    {
        match self {
            Refusal::Damaged(damage) => damage.kind(),
            _ => 0,
        }
    }
}
