// Refusals: why something was refused, and where.
ghost use Rattle.std.specs.Prelude.{◌≡◌};
ghost use Rattle.text.specs.Refusal.{number_of, Names};

// Why something was refused, each reason with its number.
#[derive(Clone, Copy, Debug, PartialEq, Eq)]
pub enum Reason {
    // The text is over 65,536 bytes.
    TooLong = 1,
    // The text is not UTF-8.
    NotUtf8 = 2,
    // A token or comment is malformed or not closed.
    Malformed = 3,
    // A string's content.
    BadContent = 4,
    // A number is too wide.
    TooWide = 5,
    // Temporal values are not served.
    Temporal = 6,
    // A token is not allowed here, or the text ends early.
    Unexpected = 7,
    // The key is already in this object.
    DuplicateKey = 8,
    // Too many containers are open at once.
    TooDeep = 9,
    // A value opens with no node left.
    NoNodeLeft = 10,
    // A length in use exceeds its buffer.
    LengthInUse = 11,
    // There is no such node.
    NoSuchNode = 12,
    // The replacement isn't one value.
    NotOneValue = 13,
    // There is no room in the text.
    TextFull = 14,
    // There is no room in the journal.
    JournalFull = 15,
    // The resulting text doesn't read.
    Unreadable = 16,
    // There is nothing to undo.
    NothingToUndo = 17,
    // The journal's entry is bad.
    BadEntry = 18,
    // The span isn't one string or key.
    NoString = 19,
    // The content is longer than the output.
    OutputFull = 20,
    // The root is no array of objects.
    NoRecords = 21,
    // A step of the path has no child to go to.
    NoChild = 23,
    // The log has more lines than the list has places.
    TooManyLines = 27,
    // What is salvaged is too large: for the output, for a text, or for the table's nodes.
    TooLarge = 28,
}

impl Reason {
    // The number by which the calls for C tell it.
    pub fn number(self) -> u8
        ensures { result ≡ number_of self }
    {
        self as u8
    }
}

// A number that no reason has.
#[derive(Clone, Copy, Debug, PartialEq, Eq)]
pub struct UnknownReason(pub u8);

impl TryFrom<u8> for Reason {
    type Error = UnknownReason;

    ghost try_from_gives = { Names };

    fn try_from(number: u8) -> Result<Self, UnknownReason> {
        match number {
            1 => Ok(Reason::TooLong),
            2 => Ok(Reason::NotUtf8),
            3 => Ok(Reason::Malformed),
            4 => Ok(Reason::BadContent),
            5 => Ok(Reason::TooWide),
            6 => Ok(Reason::Temporal),
            7 => Ok(Reason::Unexpected),
            8 => Ok(Reason::DuplicateKey),
            9 => Ok(Reason::TooDeep),
            10 => Ok(Reason::NoNodeLeft),
            11 => Ok(Reason::LengthInUse),
            12 => Ok(Reason::NoSuchNode),
            13 => Ok(Reason::NotOneValue),
            14 => Ok(Reason::TextFull),
            15 => Ok(Reason::JournalFull),
            16 => Ok(Reason::Unreadable),
            17 => Ok(Reason::NothingToUndo),
            18 => Ok(Reason::BadEntry),
            19 => Ok(Reason::NoString),
            20 => Ok(Reason::OutputFull),
            21 => Ok(Reason::NoRecords),
            23 => Ok(Reason::NoChild),
            27 => Ok(Reason::TooManyLines),
            28 => Ok(Reason::TooLarge),
            _ => Err(UnknownReason(number)),
        }
    }
}

// A reason and a place: one in the text unless the reason's own line says otherwise.
#[derive(Clone, Copy, Debug, PartialEq, Eq)]
pub struct Refusal {
    pub reason: Reason,
    pub place: usize,
}
