// Whether the order is one of slots, each once, and the readings ascend.
ghost use Rattle.std.specs.Prelude.{true, false, map, ◌↔◌, ◌≡◌, ◌≤◌, length, take};
ghost use Rattle.matching.specs.Order.{Less, Sorted};
ghost use Rattle.reading.specs.Reading.{is_less, reading_at};
ghost use Rattle.room.specs.Broken.{broken};
ghost use Rattle.room.specs.Held.{Once};
ghost use Rattle.room.specs.Layout.{parts, order_part};
ghost use Rattle.checking.specs.Checked.{Rises};

use numbers::two_at;
use reading::{is_less, reading_at};
use room::layout::{ORDER, ROWS, SLOTS};

// Whether no slot stands twice.
pub fn each_once(order: &[u8]) -> bool
    ensures { (result ≡ true) ↔ Once order.now }
{
    let mut seen = [false; 256];
    for s in order {
        let s = usize::from(*s);
        if seen[s] {
            return false;
        }
        seen[s] = true;
    }
    true
}

// Whether the readings at the first n slots ascend.
pub fn ascend(order: &[u8], slots: &[u8], n: usize) -> bool
    requires { (n ≤ length order.now) × (length slots.now ≡ 3072) }
    ensures { (result ≡ true) ↔ Sorted (Less is_less) (map (reading_at slots.now) (take n order.now)) }
{
    let read = |s: &u8| reading_at(slots, usize::from(*s));
    order[..n].is_sorted_by(|a, b| is_less(read(a), read(b)))
}

// Whether the order of a room that is not broken names no slot twice, and its readings ascend.
pub fn order_agrees(room: &[u8]) -> bool
    requires { broken room.now ≡ false }
    ensures { (result ≡ true) ↔ (Once (order_part (parts room.now)) × Rises room.now) }
{
    let order = &room[ORDER..SLOTS];
    each_once(order) && ascend(order, &room[SLOTS..ROWS], two_at(room, 4))
}
