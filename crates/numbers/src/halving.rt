// Halving.
ghost use Rattle.std.specs.Prelude.{◌≡◌, ◌≤◌, ℕ, Bool, true, false, length};
ghost use Rattle.std.specs.Fn.{ComputesKey};
ghost use Rattle.std.specs.List.Sorted.{IsPartitionedBy, IsPartitionPoint};

// Where bytes part into those that pass and, behind them, those that do not, found by halving what is left in its middle. Of bytes that do not part a place that depends on nothing
// but them: the library's `partition_point` looks at other bytes there.
pub fn parting<P: FnMut(&u8) -> bool>(bytes: &[u8], mut passes: P) -> usize
    requires { P.IsAlwaysCallable passes }
    ensures bound { result ≤ length bytes.now }
    ensures partitioned { (p : ℕ → Bool) → ComputesKey P.FnMut p passes → IsPartitionedBy p bytes.now → IsPartitionPoint (λ y. p y ≡ true) (λ y. p y ≡ false) bytes.now result }
{
    let mut low: usize = 0;
    let mut high = bytes.len();
    while low < high {
        let mid = (low + high) / 2;
        if passes(&bytes[mid]) {
            low = mid + 1;
        } else {
            high = mid;
        }
    }
    low
}
