// The order of slots: where a reading stands or would stand, and the order with a slot put in or taken out.
ghost use Rattle.std.specs.Prelude.{◌≡◌, ◌+◌, ◌≤◌, ◌<◌, map, length, take};
ghost use Rattle.reading.specs.Reading.{is_less, reading_at};
ghost use Rattle.matching.specs.Order.{Less, Sorted};
ghost use Rattle.row.specs.Row.{leading, lesser, stands_at, moved_in, moved_out};

use numbers::halving::parting;
use reading::Reading;

// How many of the first n slots have a reading that comes before w, found by halving: of slots whose readings ascend. Of any other a place up to n.
pub fn rank_of(order: &[u8], slots: &[u8], n: usize, w: Reading) -> usize
    requires { (n ≤ length order.now) × (length slots.now ≡ 3072) }
    ensures { (result ≤ n) × (Sorted (Less is_less) (map (reading_at slots.now) (take n order.now)) → result ≡ leading (lesser slots.now w) (take n order.now)) }
{
    parting(
        &order[..n],
        |s| reading::is_less(reading::reading_at(slots, *s as usize), w),
    )
}

// Whether w stands at place p of the first n.
pub fn stands_at(order: &[u8], slots: &[u8], n: usize, p: usize, w: Reading) -> bool
    requires { (n ≤ length order.now) × (length slots.now ≡ 3072) }
    ensures { result ≡ stands_at order.now slots.now n p w }
{
    p < n && reading::is_same(reading::reading_at(slots, order[p] as usize), w)
}

// The order with the slot at n at place p, into `next`.
pub fn put_in(next: &mut [u8], order: &[u8], p: usize, n: usize)
    requires { (length next.old ≡ 256) × ((length order.now ≡ 256) × ((p ≤ n) × (n < 256))) }
    ensures { next.new ≡ moved_in order.now p n }
{
    next.copy_from_slice(order);
    next[p + 1..n + 1].copy_from_slice(&order[p..n]);
    next[p] = order[n];
}

// The slot at p goes behind the other slots of the first n, in place.
pub fn take_from(order: &mut [u8], p: usize, n: usize)
    requires { (length order.old ≡ 256) × ((p < n) × (n ≤ 256)) }
    ensures { order.new ≡ moved_out order.old p n }
{
    let mut before = [0; 256];
    before.copy_from_slice(order);
    order[p..n - 1].copy_from_slice(&before[p + 1..n]);
    order[n - 1] = before[p];
}
