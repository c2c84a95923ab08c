// The rule behind refusal 10, over the bytes of a room. It stands before every call, so it looks at no token.
ghost use Rattle.std.specs.Prelude.{true, ◌≡◌, ℕ, ◌+◌, ◌*◌, ◌≤◌, ◌<◌, length, take, get_or};
ghost use Rattle.numbers.specs.BigEndian.{uint};
ghost use Rattle.room.specs.Broken.{sum, head_fits, tables_fit, broken};

use crate::layout::{COMPLETES, ENDS, ORDER, RULE_CONDITIONS};
use crate::table::{turn, turned};

// Whether the numbers of the header are in their ranges.
fn head_fits(room: &[u8]) -> bool
    requires { 16 ≤ length room.now }
    ensures { result ≡ head_fits room.now }
{
    let e = numbers::two_at(room, 0);
    let t = numbers::two_at(room, 2);
    // Number after number, the highest that it may be.
    for (k, most) in [256, 2048, e, t, 8192, 32, 192, 0].iter().enumerate() {
        if *most < numbers::two_at(room, k * 2) {
            return false;
        }
    }
    1 <= e && 1 <= t
}

// Whether it is seen at once that the rules have 1 to 6 conditions each, `conditions` in all: where no place behind them has any.
fn counts_fit(counts: &[u8], rules: usize, conditions: usize) -> bool
    requires { (length counts.now ≡ 32) × (rules ≤ 32) }
    ensures { result ≡ true → ((i : ℕ) → i < rules → (1 ≤ get_or counts.now i 0) × (get_or counts.now i 0 ≤ 6)) × (sum (take rules counts.now) ≡ conditions) }
{
    // (as `0..32u8` the places cost twice as much: the loop is then not compiled for wide registers)
    let places = [
        0u8, 1, 2, 3, 4, 5, 6, 7, 8, 9, 10, 11, 12, 13, 14, 15, 16, 17, 18, 19, 20, 21, 22, 23, 24,
        25, 26, 27, 28, 29, 30, 31,
    ];
    let few = rules as u8;
    let mut wrong: u8 = 0;
    let mut total: u8 = 0;
    for (i, place) in places.iter().enumerate() {
        let k = counts[i];
        if k <= 6 {
            total += k;
        } else {
            wrong += 1;
        }
        if (k == 0) == (*place < few) {
            wrong += 1;
        }
    }
    wrong == 0 && total as usize == conditions
}

// Whether all 32 numbers of both other tables are at most the tokens: whether the highest of them is.
fn ends_fit(room: &[u8]) -> bool
    requires { 18288 ≤ length room.now }
    ensures { result ≡ true → (i : ℕ) → i < 32 → (uint 2 room.now (8688 + i * 2) ≤ uint 2 room.now 6) × (uint 2 room.now (8752 + i * 2) ≤ uint 2 room.now 6) }
{
    let tokens = numbers::two_at(room, 6) as u16;
    let ends = turned(&room[ENDS..COMPLETES]);
    let fulls = turned(&room[COMPLETES..ORDER]);
    let mut most: u16 = 0;
    for (i, end) in ends.iter().enumerate() {
        most = most.max(turn(*end)).max(turn(fulls[i]));
    }
    most <= tokens
}

// The tables of rules in a room that is long enough for them and whose header fits.
#[derive(Clone, Copy)]
struct Tables<'a> {
    room: &'a [u8],
    rules: usize,
    ghost large: { 18288 ≤ length room.now },
    ghost counted: { rules ≡ uint 2 room.now 10 },
    ghost few: { rules ≤ 32 },
}

impl<'a> Tables<'a> {
    // Whether it is seen at once that they are in their ranges, those behind the last rule too, as this library leaves them. The loops have 32 turns and no way out: they are compiled for
    // wide registers.
    fn all_fit(&self) -> bool
        ensures { result ≡ true → tables_fit self.now.room.now ≡ true }
    {
        let conditions = numbers::two_at(self.room, 12);
        counts_fit(&self.room[RULE_CONDITIONS..ENDS], self.rules, conditions) && ends_fit(self.room)
    }

    // Whether they are in their ranges, rule after rule.
    fn each_fits(&self) -> bool
        ensures { result ≡ tables_fit self.now.room.now }
    {
        let tokens = numbers::two_at(self.room, 6);
        let mut total: usize = 0;
        for i in 0..self.rules {
            let k = self.room[RULE_CONDITIONS + i] as usize;
            let last = numbers::two_at(self.room, ENDS + i * 2);
            let complete = numbers::two_at(self.room, COMPLETES + i * 2);
            if k < 1 || 6 < k || tokens < last || tokens < complete {
                return false;
            }
            total += k;
        }
        total == numbers::two_at(self.room, 12)
    }

    // Whether they are in their ranges.
    fn fit(&self) -> bool
        ensures { result ≡ tables_fit self.now.room.now }
    {
        // Of few rules it is cheaper to look at each.
        (8 <= self.rules && self.all_fit()) || self.each_fits()
    }
}

// Whether a room is broken: shorter than the formula for its stored limits, or a stored limit, count or link outside its range.
pub fn is_broken(room: &[u8]) -> bool
    ensures { result ≡ broken room.now }
{
    if room.len() < 16 || !head_fits(room) || room.len() < 18288 + numbers::two_at(room, 2) * 2 {
        return true;
    }
    let tables = Tables {
        room,
        rules: numbers::two_at(room, 10),
    };
    !tables.fit()
}
