// The refusals of document 01, in one place, and the limits of a book. A refusal is a cause, which has its number, and a place.
ghost use Rattle.std.specs.Prelude.{◌≡◌};
ghost use Rattle.book.specs.Refusals.{number_of};

// Why something is refused.
#[derive(Clone, Copy, Debug, PartialEq, Eq)]
pub enum Cause {
    // Book longer than 8,192 bytes.
    BookTooLong,
    // The bytes end inside a record, or where one must begin.
    CutShort,
    // Unknown kind.
    UnknownKind,
    // Misplaced record, or a byte after the end.
    Misplaced,
    // Rule number not above the one before.
    NumberNotAbove,
    // Bad body: wording byte, place, relation, condition after its own, low above high.
    BadBody,
    // 33rd rule, 7th condition or 9th test.
    TooMany,
    // A limit of readings or tokens outside its range.
    LimitsOutside,
    // Room shorter than the formula for its limits.
    RoomTooShort,
    // Broken room: shorter than the formula for its stored limits, or a stored number outside its range.
    RoomBroken,
    // Addition of a reading that is present.
    AlreadyPresent,
    // Removal of a reading that is not present.
    NotPresent,
    // Addition with as many readings present as the limit.
    TooManyReadings,
    // Addition after which the tokens would be more than the limit.
    TooManyTokens,
    // The line has no place in the buffer.
    BufferTooShort,
    // No complaint of that index.
    NoSuchComplaint,
    // No rule of that number in the book.
    NoSuchRule,
    // A file that cannot be read.
    NoSuchFile,
    // What is written has no place in what is lent for it.
    OutputTooShort,
}

impl Cause {
    // The number that document 01 has for it.
    pub fn number(self) -> u8
        ensures { result ≡ number_of self }
    {
        match self {
            Cause::BookTooLong => 1,
            Cause::CutShort => 2,
            Cause::UnknownKind => 3,
            Cause::Misplaced => 4,
            Cause::NumberNotAbove => 5,
            Cause::BadBody => 6,
            Cause::TooMany => 7,
            Cause::LimitsOutside => 8,
            Cause::RoomTooShort => 9,
            Cause::RoomBroken => 10,
            Cause::AlreadyPresent => 11,
            Cause::NotPresent => 12,
            Cause::TooManyReadings => 13,
            Cause::TooManyTokens => 14,
            Cause::BufferTooShort => 15,
            Cause::NoSuchComplaint => 16,
            Cause::NoSuchRule => 17,
            Cause::NoSuchFile => 18,
            Cause::OutputTooShort => 19,
        }
    }
}

// The cause, and the place: an offset in the book, or 0.
#[derive(Clone, Copy, Debug, PartialEq, Eq)]
pub struct Refusal {
    pub cause: Cause,
    pub place: usize,
}

// The longest book, and how many rules it may have, conditions a rule, tests a condition.
pub const MOST_BYTES: usize = 8192;

pub const MOST_RULES: usize = 32;

pub const MOST_CONDITIONS: usize = 6;

pub const MOST_TESTS: usize = 8;
