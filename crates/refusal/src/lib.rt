#![tactic(auto)]

ghost use Rattle.std.specs.Prelude.{◌≡◌};
ghost use Rattle.refusal.specs.declared.Part.TheVariants.{Draft as DraftPart};
ghost use Rattle.refusal.specs.Numbers.{number as number_of_lem};

pub mod show;

// Why a call is refused. People and programs name a reason by its number.
#[derive(Clone, Copy, PartialEq, Eq, Debug)]
pub enum Reason {
    // under 16 bytes, or other first letters
    NotRedbin = 1,
    // another version of the format
    Version = 2,
    // a flag that may not be set
    Flags = 3,
    // a field does not fit its file or payload
    Short = 4,
    // a field, or the file, is too large
    Large = 5,
    // bytes are left over
    LeftOver = 6,
    // an offset leads to no lawful name that ends inside the strings
    BadSymbol = 7,
    // a type that is not allowed here
    BadType = 8,
    // header bits that are not allowed
    BadBits = 9,
    // a bad logic, codepoint or zero byte, or a float off its boundary
    BadContent = 10,
    // a path that leads to no value of the family
    BadPath = 11,
    // a symbol index that is not below the count
    BadIndex = 12,
    // a value would stand deeper than is permitted
    TooDeep = 13,
    // a memory has too little left
    NoMemory = 14,
    // a load where steps stand
    StepsStand = 15,
    // a save or a print where something is open
    StillOpen = 16,
    // nothing is open to close, or no step stands to take back
    NothingThere = 17,
    // a name against the rule
    BadName = 18,
    // a value, or the target of a share, that is not allowed
    NotAllowed = 19,
    // a pair does not fit its listing, or a file its output
    DoesNotFit = 20,
    // a pair that is not good, or not a tuning document
    NotTuning = 21,
}

// What a refused call was working on.
#[derive(Clone, Copy, PartialEq, Eq, Debug)]
pub enum Part {
    // the first 16 bytes of a file
    Header,
    // its symbol table
    Symbols,
    // a record, but for a reference in it
    Record,
    // a reference
    Reference,
    // the draft, not a file
    Draft,
}

// The answer of a call that is refused.
#[derive(Clone, Copy, PartialEq, Eq, Debug)]
pub struct Refusal {
    pub reason: Reason,
    pub part: Part,
    pub place: usize,
}

impl Reason {
    pub fn number(self) -> u32
        ensures { result ≡ number_of_lem self }
    {
        self as u32
    }

    // The refusal for this reason.
    pub fn at(self, part: Part, place: usize) -> Refusal
        ensures { result ≡ record { reason = self; part = part; place = place } }
    {
        Refusal {
            reason: self,
            part,
            place,
        }
    }
}

// A call on a draft is refused: the draft is named, and no place in it.
impl From<Reason> for Refusal {
    ghost from_gives = { λ reason r. r ≡ record { reason = reason; part = DraftPart; place = 0 } };

    fn from(reason: Reason) -> Refusal {
        reason.at(Part::Draft, 0)
    }
}
