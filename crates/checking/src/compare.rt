// Tables compared, number by number.
ghost use Rattle.std.specs.Prelude.{true, ◌↔◌, ◌≡◌, ◌*◌, ◌≤◌, length, take};
ghost use Rattle.room.specs.Parts.{twos};

// Whether the first n bytes are the same.
pub fn same_bytes(a: &[u8], b: &[u8], n: usize) -> bool
    requires { (n ≤ length a.now) × (n ≤ length b.now) }
    ensures { (result ≡ true) ↔ (take n a.now ≡ take n b.now) }
{
    a[..n] == b[..n]
}

// Whether the first n numbers of two bytes each are these.
pub fn same_twos(table: &[u8], numbers: &[u16], n: usize) -> bool
    requires { (n * 2 ≤ length table.now) × ((n ≤ length numbers.now) × (n ≤ 192)) }
    ensures { (result ≡ true) ↔ (twos n table.now ≡ take n numbers.now) }
{
    for (i, number) in numbers[..n].iter().enumerate() {
        if numbers::two_at(table, i * 2) != usize::from(*number) {
            return false;
        }
    }
    true
}
