// Whether the rows of the slots in use are those of their readings.
ghost use Rattle.std.specs.Prelude.{true, false, ◌↔◌, ◌≡◌, ℕ, ◌+◌, ◌*◌, ◌≤◌, ◌<◌, length};
ghost use Rattle.room.specs.Broken.{broken};
ghost use Rattle.room.specs.Held.{in_memory};
ghost use Rattle.checking.specs.Checked.{RowsAgree};

use numbers::two_at;
use reading::reading_at;
use room::layout::{
    BOOK, CONDITION_PLACES, ENDS, NODES, ORDER, ROWS, RULE_CONDITIONS, RULE_PLACES, SLOTS,
};
use row::row::{Row, make_row};
use weave::view::bit_at;

// Whether row s has the bits of the first n conditions of a row made anew.
pub fn row_agrees(rows: &[u8], s: usize, row: &[u8], n: usize) -> bool
    requires { (s * 24 + 24 ≤ length rows.now) × ((length row.now ≡ 24) × (n ≤ 192)) }
    ensures { (result ≡ true) ↔ ((c : ℕ) → c < n → in_memory rows.now c s ≡ in_memory row.now c 0) }
{
    for c in 0..n {
        if bit_at(rows, s, c) != bit_at(row, 0, c) {
            return false;
        }
    }
    true
}

// Whether that is so of every slot in use.
pub fn rows_agree(room: &[u8]) -> bool
    requires { broken room.now ≡ false }
    ensures { (result ≡ true) ↔ RowsAgree room.now }
{
    let n = two_at(room, 4);
    let end = BOOK + two_at(room, 8);
    let conditions = two_at(room, 12);
    let mut row = Row::none();
    for i in 0..n {
        let s = room[ORDER + i] as usize;
        let w = reading_at(&room[SLOTS..ROWS], s);
        make_row(
            &room[BOOK..end],
            &room[CONDITION_PLACES..RULE_PLACES],
            &room[RULE_CONDITIONS..ENDS],
            conditions,
            w,
            &mut row,
        );
        if !row_agrees(&room[ROWS..NODES], s, &row.bits, conditions) {
            return false;
        }
    }
    true
}
