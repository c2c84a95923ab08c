// Records: one byte of kind, then a body whose length the kind fixes.
ghost use Rattle.std.specs.Prelude.{◌≡◌};
ghost use Rattle.book.specs.Record.{rule_body, constant_body, position_body, gap_body, record_at, test_size, size_of};

use crate::refusal::{Cause, Refusal};
use numbers::{eight_at, four_at, signed_of, two_at};

// A test is one of three kinds, each with its own numbers. Places and relations stay the numbers of the book: a record is taken apart before it is judged, and refusal 6, of
// a number out of range, comes after 4, 7 and 5 (`judged`).
#[derive(Clone, Copy, Debug, PartialEq, Eq)]
pub enum Test {
    Constant {
        place: u8,
        relation: u8,
        number: u32,
    },
    Position {
        place: u8,
        relation: u8,
        condition: u8,
        other: u8,
    },
    Gap {
        place: u8,
        condition: u8,
        other: u8,
        low: i64,
        high: i64,
    },
}

// What stands at a place of the book. A rule's wording stays in the book: an enum cannot hold it.
#[derive(Clone, Copy, Debug, PartialEq, Eq)]
pub enum Record {
    Rule { number: u16 },
    Condition,
    Test(Test),
    End,
}

#[tactic(auto, unfolding(crate::specs::Record::rule_body, crate::specs::Record::whole))]
fn rule_body(body: &[u8], at: usize) -> Result<Record, Refusal>
    ensures { result ≡ rule_body body.now at }
{
    if body.len() < 26 {
        return Err(Refusal {
            cause: Cause::CutShort,
            place: at,
        });
    }
    Ok(Record::Rule {
        number: two_at(body, 0) as u16,
    })
}

#[tactic(auto, unfolding(crate::specs::Record::constant_body, crate::specs::Record::whole))]
fn constant_body(body: &[u8], at: usize) -> Result<Record, Refusal>
    ensures { result ≡ constant_body body.now at }
{
    if body.len() < 6 {
        return Err(Refusal {
            cause: Cause::CutShort,
            place: at,
        });
    }
    Ok(Record::Test(Test::Constant {
        place: body[0],
        relation: body[1],
        number: four_at(body, 2),
    }))
}

#[tactic(auto, unfolding(crate::specs::Record::position_body, crate::specs::Record::whole))]
fn position_body(body: &[u8], at: usize) -> Result<Record, Refusal>
    ensures { result ≡ position_body body.now at }
{
    if body.len() < 4 {
        return Err(Refusal {
            cause: Cause::CutShort,
            place: at,
        });
    }
    Ok(Record::Test(Test::Position {
        place: body[0],
        relation: body[1],
        condition: body[2],
        other: body[3],
    }))
}

#[tactic(auto, unfolding(crate::specs::Record::gap_body, crate::specs::Record::whole))]
fn gap_body(body: &[u8], at: usize) -> Result<Record, Refusal>
    ensures { result ≡ gap_body body.now at }
{
    if body.len() < 19 {
        return Err(Refusal {
            cause: Cause::CutShort,
            place: at,
        });
    }
    Ok(Record::Test(Test::Gap {
        place: body[0],
        condition: body[1],
        other: body[2],
        low: signed_of(eight_at(body, 3)),
        high: signed_of(eight_at(body, 11)),
    }))
}

// The record that begins at `at`, whatever the bytes: its body is read from the part of the book that starts after the kind.
#[tactic(auto, unfolding(crate::specs::Record::record_at, crate::specs::Record::by_kind))]
pub fn record_at(book: &[u8], at: usize) -> Result<Record, Refusal>
    ensures { result ≡ record_at book.now at }
{
    if book.len() <= at {
        return Err(Refusal {
            cause: Cause::CutShort,
            place: at,
        });
    }
    let kind = book[at];
    let from = at + 1;
    let body = &book[from..];
    match kind {
        1 => rule_body(body, at),
        2 => Ok(Record::Condition),
        3 => constant_body(body, at),
        4 => position_body(body, at),
        5 => gap_body(body, at),
        9 => Ok(Record::End),
        _ => Err(Refusal {
            cause: Cause::UnknownKind,
            place: at,
        }),
    }
}

// How many bytes a test's record takes, kind and body.
#[tactic(auto, unfolding(crate::specs::Record::test_size))]
pub fn test_size(t: Test) -> usize
    ensures { result ≡ test_size t }
{
    match t {
        Test::Constant { .. } => 7,
        Test::Position { .. } => 5,
        Test::Gap { .. } => 20,
    }
}

// How many bytes a record takes, kind and body.
#[tactic(auto, unfolding(crate::specs::Record::size_of))]
pub fn size_of(r: Record) -> usize
    ensures { result ≡ size_of r }
{
    match r {
        Record::Rule { .. } => 27,
        Record::Condition => 1,
        Record::Test(t) => test_size(t),
        Record::End => 1,
    }
}
