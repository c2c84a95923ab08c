// What is written into the parts of a room, and a room opened.
ghost use Rattle.std.specs.Prelude.{◌≡◌, ◌++◌, ℕ, ◌+◌, ◌*◌, ◌≤◌, ◌<◌, length, take, replicate};
ghost use Rattle.numbers.specs.BigEndian.{bytes};
ghost use Rattle.numbers.specs.Spliced.{spliced};
ghost use Rattle.room.specs.Parts.{cut, below, twos_bytes};
ghost use Rattle.room.specs.Layout.{widths};
ghost use Rattle.room.specs.Written.{aside, opened, Opening, counted, stepped, slots_with, rows_with, Stepping};

use crate::layout::{
    BOOK, COMPLETES, CONDITION_PLACES, ENDS, HEAD, NODES, ORDER, ROWS, RULE_CONDITIONS,
    RULE_PLACES, SLOTS,
};
use crate::table::put_table;
use reading::Reading;

// The first n bytes of `from` in a part, from `at` on: byte by byte, of which a compiler makes blocks or the C library's `memcpy`. Of slices that it can't see to be apart the library's
// `copy_from_slice` asks for `memmove` besides.
pub fn copy_at(part: &mut [u8], at: usize, from: &[u8], n: usize)
    requires { (at + n ≤ length part.old) × (n ≤ length from.now) }
    ensures { part.new ≡ spliced part.old at (take n from.now) }
{
    for i in 0..n {
        part[at + i] = from[i];
    }
}

// Numbers in two bytes each, over a whole part.
pub fn put_twos(part: &mut [u8], numbers: &[u16])
    requires { length part.old ≡ length numbers.now * 2 }
    ensures { part.new ≡ twos_bytes numbers.now }
{
    for (i, x) in numbers.iter().enumerate() {
        numbers::put_two(part, i * 2, *x);
    }
}

// Zeros over a whole part.
pub fn clear(part: &mut [u8])
    ensures { part.new ≡ replicate (length part.old) 0 }
{
    part.fill(0);
}

// Every slot at its own place: an order in which all are free.
pub fn put_plain_order(order: &mut [u8])
    requires { length order.old ≡ 256 }
    ensures { order.new ≡ below 256 }
{
    for i in 0..256 {
        order[i] = i as u8;
    }
}

// How many readings and tokens a room may hold.
#[derive(Clone, Copy, Debug, PartialEq, Eq)]
pub struct Limits {
    pub readings: u16,
    pub tokens: u16,
}

// The index of a book: how many rules and conditions it has, and the tables of them.
#[derive(Clone, Copy)]
pub struct Index<'a> {
    pub rules: u16,
    pub conditions: u16,
    pub rule_places: &'a [u16],
    pub rule_conditions: &'a [u8],
    pub condition_places: &'a [u16],
}

// The parts of a room just opened, one after the other.
pub fn write_opening(room: &mut [u8], book: &[u8], limits: Limits, index: &Index<'_>)
    requires { Opening room.old book.now limits.tokens index.now.rule_places.now index.now.rule_conditions.now index.now.condition_places.now }
    ensures { cut 0 (widths limits.tokens) room.new ≡ opened limits.readings limits.tokens book.now index.now.rules index.now.conditions index.now.rule_places.now index.now.rule_conditions.now index.now.condition_places.now (cut 0 (widths limits.tokens) room.old) }
{
    let head = [
        limits.readings,
        limits.tokens,
        0,
        0,
        book.len() as u16,
        index.rules,
        index.conditions,
        0,
    ];
    put_twos(&mut room[HEAD..BOOK], &head);
    copy_at(room, BOOK, book, book.len());
    put_twos(
        &mut room[CONDITION_PLACES..RULE_PLACES],
        index.condition_places,
    );
    put_twos(&mut room[RULE_PLACES..RULE_CONDITIONS], index.rule_places);
    copy_at(room, RULE_CONDITIONS, index.rule_conditions, 32);
    clear(&mut room[ENDS..COMPLETES]);
    clear(&mut room[COMPLETES..ORDER]);
    put_plain_order(&mut room[ORDER..SLOTS]);
}

// The readings present and the tokens into a header.
fn put_counts(head: &mut [u8], readings: u16, tokens: u16)
    requires { length head.old ≡ 16 }
    ensures { head.new ≡ spliced head.old 4 (bytes 2 readings ++ bytes 2 tokens) }
{
    numbers::put_two(head, 4, readings);
    numbers::put_two(head, 6, tokens);
}

// What a step counts: the tables of rules, and the readings present and the tokens.
pub fn write_counts(room: &mut [u8], readings: u16, tokens: u16, ends: &[u16], completes: &[u16])
    requires { (18288 ≤ length room.old) × ((length ends.now ≡ 32) × (length completes.now ≡ 32)) }
    ensures { (T : ℕ) → 18288 + T * 2 ≤ length room.old → cut 0 (widths T) room.new ≡ counted readings tokens ends.now completes.now (cut 0 (widths T) room.old) }
{
    put_table(&mut room[ENDS..COMPLETES], ends);
    put_table(&mut room[COMPLETES..ORDER], completes);
    put_counts(&mut room[HEAD..BOOK], readings, tokens);
}

// What a step has worked out aside.
#[derive(Clone, Copy)]
pub struct Worked<'a> {
    pub readings: u16,
    pub tokens: u16,
    pub ends: &'a [u16],
    pub completes: &'a [u16],
    pub order: &'a [u8],
    pub nodes: &'a [u8],
    pub lasts: &'a [u8],
}

// An addition, written: what the step has worked out aside, into the parts that it concerns.
pub fn write_added(
    room: &mut [u8],
    most: usize,
    worked: &Worked<'_>,
    slot: u8,
    r: Reading,
    row: &[u8],
)
    requires { Stepping room.old most (aside worked.now) × (length row.now ≡ 24) }
    ensures { cut 0 (widths most) room.new ≡ stepped (aside worked.now) (slots_with (cut 0 (widths most) room.old) slot r) (rows_with (cut 0 (widths most) room.old) slot row.now) (cut 0 (widths most) room.old) }
{
    let n = worked.tokens as usize;
    copy_at(room, NODES, worked.nodes, n);
    copy_at(room, NODES + most, worked.lasts, n);
    copy_at(room, ORDER, worked.order, 256);
    let s = slot as usize;
    reading::put_reading(&mut room[SLOTS..ROWS], s, r);
    copy_at(&mut room[ROWS..NODES], s * 24, row, 24);
    write_counts(
        room,
        worked.readings,
        worked.tokens,
        worked.ends,
        worked.completes,
    );
}
