// Tables of 32 numbers of two bytes each, read and written as a whole.
ghost use Rattle.std.specs.Prelude.{◌≡◌, ℕ, ◌+◌, ◌*◌, ◌/◌, ◌%◌, ◌<◌, length, get_or};
ghost use Rattle.room.specs.Parts.{twos, twos_bytes};

// A table of numbers of two bytes each, as numbers of sixteen bits whose bytes are the wrong way round: so a compiler takes eight of them at once.
pub fn turned(table: &[u8]) -> [u16; 32]
    requires { length table.now ≡ 64 }
    ensures { (length result ≡ 32) × ((i : ℕ) → i < 32 → get_or result i 0 ≡ get_or table.now (i * 2) 0 + get_or table.now (i * 2 + 1) 0 * 256) }
{
    let mut ys = [0u16; 32];
    for (i, y) in ys.iter_mut().enumerate() {
        *y = u16::from_le_bytes([table[i * 2], table[i * 2 + 1]]);
    }
    ys
}

// Such a number the right way round.
pub fn turn(y: u16) -> u16
    ensures { result ≡ y % 256 * 256 + y / 256 }
{
    y.swap_bytes()
}

// The numbers of a table.
pub fn read_table(numbers: &mut [u16], table: &[u8])
    requires { (length numbers.old ≡ 32) × (length table.now ≡ 64) }
    ensures { numbers.new ≡ twos 32 table.now }
{
    for (i, y) in turned(table).iter().enumerate() {
        numbers[i] = turn(*y);
    }
}

// Numbers over a whole table: turned first, so that their bytes are written in the order in which they stand. It is `put_twos` of a fixed number of them, which alone is compiled for wide
// registers.
pub fn put_table(table: &mut [u8], numbers: &[u16])
    requires { (length table.old ≡ 64) × (length numbers.now ≡ 32) }
    ensures { table.new ≡ twos_bytes numbers.now }
{
    let mut ys = [0u16; 32];
    for (i, y) in ys.iter_mut().enumerate() {
        *y = turn(numbers[i]);
    }
    for (i, y) in ys.iter().enumerate() {
        table[i * 2..i * 2 + 2].copy_from_slice(&y.to_le_bytes());
    }
}
