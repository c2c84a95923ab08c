// Numbers in bytes: big-endian and two's complement, as the rule book and the room keep them, and decimal digits, as a line shows them.
#![tactic(auto)]

pub mod halving;

ghost use Rattle.std.specs.Prelude.{◌≡◌, ◌+◌, ◌^◌, ◌≤◌, ◌<◌, length};
ghost use Rattle.numbers.specs.BigEndian.{uint, bytes};
ghost use Rattle.numbers.specs.Digits.{digits};
ghost use Rattle.numbers.specs.Signed.{signed};
ghost use Rattle.numbers.specs.Spliced.{spliced};

// The big-endian number of the n bytes of b from i on.
pub fn uint_at(b: &[u8], i: usize, n: usize) -> u64
    requires { (n ≤ 8) × (i + n ≤ length b.now) }
    ensures { (result ≡ uint n b.now i) × (result < 256 ^ n) }
{
    let mut acc: u64 = 0;
    for byte in &b[i..i + n] {
        acc = acc * 256 + *byte as u64;
    }
    acc
}

// The same of two bytes, which are read often: with no loop.
#[tactic(auto, unfolding(crate::specs::BigEndian::uint))]
pub fn two_at(b: &[u8], i: usize) -> usize
    requires { i + 2 ≤ length b.now }
    ensures { (result ≡ uint 2 b.now i) × (result < 65536) }
{
    u16::from_be_bytes([b[i], b[i + 1]]) as usize
}

// The same of four bytes.
#[tactic(auto, unfolding(crate::specs::BigEndian::uint))]
pub fn four_at(b: &[u8], i: usize) -> u32
    requires { i + 4 ≤ length b.now }
    ensures { result ≡ uint 4 b.now i }
{
    u32::from_be_bytes([b[i], b[i + 1], b[i + 2], b[i + 3]])
}

// The same of eight bytes.
#[tactic(auto, unfolding(crate::specs::BigEndian::uint))]
pub fn eight_at(b: &[u8], i: usize) -> u64
    requires { i + 8 ≤ length b.now }
    ensures { result ≡ uint 8 b.now i }
{
    u64::from_be_bytes([
        b[i],
        b[i + 1],
        b[i + 2],
        b[i + 3],
        b[i + 4],
        b[i + 5],
        b[i + 6],
        b[i + 7],
    ])
}

// The whole number that the 64 bits of n are in two's complement.
pub fn signed_of(n: u64) -> i64
    ensures { result ≡ signed n }
{
    n.cast_signed()
}

// x in two bytes of out from `at` on, big-endian.
pub fn put_two(out: &mut [u8], at: usize, x: u16)
    requires { at + 2 ≤ length out.old }
    ensures { out.new ≡ spliced out.old at (bytes 2 x) }
{
    out[at..at + 2].copy_from_slice(&x.to_be_bytes());
}

// x in four bytes of out from `at` on, big-endian.
pub fn put_four(out: &mut [u8], at: usize, x: u32)
    requires { at + 4 ≤ length out.old }
    ensures { out.new ≡ spliced out.old at (bytes 4 x) }
{
    out[at..at + 4].copy_from_slice(&x.to_be_bytes());
}

// x in eight bytes of out from `at` on, big-endian.
pub fn put_eight(out: &mut [u8], at: usize, x: u64)
    requires { at + 8 ≤ length out.old }
    ensures { out.new ≡ spliced out.old at (bytes 8 x) }
{
    out[at..at + 8].copy_from_slice(&x.to_be_bytes());
}

// How many decimal digits x has. Comparisons, the short numbers first: the library's `ilog10` takes more for every number than these do for one of three digits.
pub fn digit_count(x: u32) -> usize
    ensures { (result ≡ length (digits x)) × (result ≤ 10) }
{
    if x < 10 {
        return 1;
    }
    if x < 100 {
        return 2;
    }
    if x < 1000 {
        return 3;
    }
    if x < 10000 {
        return 4;
    }
    if x < 100000 {
        return 5;
    }
    if x < 1000000 {
        return 6;
    }
    if x < 10000000 {
        return 7;
    }
    if x < 100000000 {
        return 8;
    }
    if x < 1000000000 {
        return 9;
    }
    10
}

// The decimal digits of x into the front of `rest`, the last two first; how many they are.
pub fn put_digits(rest: &mut [u8], x: u32) -> usize
    requires { length (digits x) ≤ length rest.old }
    ensures { (result ≡ length (digits x)) × (rest.new ≡ spliced rest.old 0 (digits x)) }
{
    let n = digit_count(x);
    let mut at = n;
    let mut y = x;
    // (no count: two digits a turn, from the last on)
    while 2 < at {
        at -= 2;
        let two = y % 100;
        rest[at + 1] = 48 + ((two % 10) as u8);
        rest[at] = 48 + ((two / 10) as u8);
        y = y / 100;
    }
    if at == 2 {
        rest[1] = 48 + ((y % 10) as u8);
        y = y / 10;
    }
    rest[0] = 48 + (y as u8);
    n
}
