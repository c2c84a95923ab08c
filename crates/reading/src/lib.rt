// A reading: three whole numbers, its order, and the twelve bytes in which a room keeps it.
#![tactic(auto)]

ghost use Rattle.std.specs.Prelude.{◌≡◌, ◌+◌, ◌*◌, ◌≤◌, length};
ghost use Rattle.numbers.specs.Spliced.{spliced};
ghost use Rattle.reading.specs.Reading.{place, is_less, is_same, reading_at, reading_bytes};

// Three whole numbers, each 0 to 4,294,967,295. Readings are ordered by line, then column, then value: the derived order, field after field.
#[derive(Clone, Copy, Debug, PartialEq, Eq, PartialOrd, Ord)]
pub struct Reading {
    pub line: u32,
    pub column: u32,
    pub value: u32,
}

// The number at place p of a reading: line, column, value; past these it is the value again.
#[tactic(auto, unfolding(crate::specs::Reading::place))]
pub fn place_of(r: Reading, p: u8) -> u32
    ensures { result ≡ place p r }
{
    match p {
        0 => r.line,
        1 => r.column,
        _ => r.value,
    }
}

// Whether one reading comes before another: by line, then column, then value.
#[tactic(auto, using(crate::proofs::Readings::lt_is_less))]
pub fn is_less(a: Reading, b: Reading) -> bool
    ensures { result ≡ is_less a b }
{
    a < b
}

// Whether two readings are the same.
#[tactic(auto, using(crate::proofs::Readings::eq_is_same))]
pub fn is_same(a: Reading, b: Reading) -> bool
    ensures { result ≡ is_same a b }
{
    a == b
}

// The reading in the twelve bytes from 12 i on: line, column, value, four bytes each.
#[tactic(auto, unfolding(crate::specs::Reading::reading_at))]
pub fn reading_at(bytes: &[u8], i: usize) -> Reading
    requires { i * 12 + 12 ≤ length bytes.now }
    ensures { result ≡ reading_at bytes.now i }
{
    let at = i * 12;
    Reading {
        line: numbers::four_at(bytes, at),
        column: numbers::four_at(bytes, at + 4),
        value: numbers::four_at(bytes, at + 8),
    }
}

// The reading into the twelve bytes from 12 i on.
pub fn put_reading(bytes: &mut [u8], i: usize, r: Reading)
    requires { i * 12 + 12 ≤ length bytes.old }
    ensures { bytes.new ≡ spliced bytes.old (i * 12) (reading_bytes r) }
{
    let at = i * 12;
    numbers::put_four(bytes, at, r.line);
    numbers::put_four(bytes, at + 4, r.column);
    numbers::put_four(bytes, at + 8, r.value);
}
