// Rows: six numbers a record, its kind and then its body's numbers in the book's order.
ghost use Rattle.std.specs.Prelude.{◌≡◌};
ghost use Rattle.writer.specs.Fields.{clamped};
ghost use Rattle.writer.specs.Rows.{constant_of, record_of, span_of, is_rule, unfit_rule};
ghost use Rattle.writer.specs.Values.{test_row, row_of};

use crate::field::{clamp, field_fits};
use book::record::{Record, Test, size_of};
use book::refusal::Cause;

// How many numbers a row has.
pub const ROW: usize = 6;

// A number as a byte: 255, which is no kind, place, relation or condition, where it is none.
fn byte_of(z: i64) -> u8
    ensures { result ≡ clamped 255 z }
{
    clamp(z, 255) as u8
}

// The constant test of a row; where its number does not fit, one with a place that the reader refuses.
#[tactic(auto, unfolding(crate::specs::Rows::constant_of))]
fn constant_of(row: &[i64; ROW]) -> Record
    ensures { result ≡ constant_of row.now }
{
    if !field_fits(row[3], 0xffff_ffff) {
        return Record::Test(Test::Constant {
            place: 255,
            relation: 255,
            number: 0xffff_ffff,
        });
    }
    Record::Test(Test::Constant {
        place: byte_of(row[1]),
        relation: byte_of(row[2]),
        number: clamp(row[3], 0xffff_ffff),
    })
}

// The record that a row says; a kind that no value has is refused.
#[tactic(auto, unfolding(crate::specs::Rows::record_by, crate::specs::Rows::record_of, crate::specs::Rows::position_of, crate::specs::Rows::gap_of))]
pub fn record_of(row: &[i64; ROW]) -> Result<Record, Cause>
    ensures { result ≡ record_of row.now }
{
    match byte_of(row[0]) {
        1 => Ok(Record::Rule {
            number: clamp(row[1], 65535) as u16,
        }),
        2 => Ok(Record::Condition),
        3 => Ok(constant_of(row)),
        4 => Ok(Record::Test(Test::Position {
            place: byte_of(row[1]),
            relation: byte_of(row[2]),
            condition: byte_of(row[3]),
            other: byte_of(row[4]),
        })),
        5 => Ok(Record::Test(Test::Gap {
            place: byte_of(row[1]),
            condition: byte_of(row[2]),
            other: byte_of(row[3]),
            low: row[4],
            high: row[5],
        })),
        _ => Err(Cause::UnknownKind),
    }
}

// How many bytes a row's record takes; that of an unknown kind its one byte.
#[tactic(auto, unfolding(crate::specs::Rows::span_of))]
pub fn row_size(said: Result<Record, Cause>) -> usize
    ensures { result ≡ span_of said }
{
    said.map_or(1, size_of)
}

// Whether a row is a rule.
#[tactic(auto, unfolding(crate::specs::Rows::is_rule))]
pub fn is_rule(row: &[i64; ROW]) -> bool
    ensures { result ≡ is_rule row.now }
{
    byte_of(row[0]) == 1
}

// Whether it is a rule whose number does not fit 16 bits.
#[tactic(auto, unfolding(crate::specs::Rows::unfit_rule))]
pub fn is_unfit_rule(row: &[i64; ROW]) -> bool
    ensures { result ≡ unfit_rule row.now }
{
    is_rule(row) && !field_fits(row[1], 65535)
}

// The row of a test.
#[tactic(auto, unfolding(crate::specs::Values::test_row))]
fn test_row(t: Test) -> [i64; ROW]
    ensures { result ≡ test_row t }
{
    match t {
        Test::Constant {
            place,
            relation,
            number,
        } => [
            3,
            i64::from(place),
            i64::from(relation),
            i64::from(number),
            0,
            0,
        ],
        Test::Position {
            place,
            relation,
            condition,
            other,
        } => [
            4,
            i64::from(place),
            i64::from(relation),
            i64::from(condition),
            i64::from(other),
            0,
        ],
        Test::Gap {
            place,
            condition,
            other,
            low,
            high,
        } => [
            5,
            i64::from(place),
            i64::from(condition),
            i64::from(other),
            low,
            high,
        ],
    }
}

// The row of a record.
#[tactic(auto, unfolding(crate::specs::Values::row_of))]
pub fn row_of(r: Record) -> [i64; ROW]
    ensures { result ≡ row_of r }
{
    match r {
        Record::Rule { number } => [1, i64::from(number), 0, 0, 0, 0],
        Record::Condition => [2, 0, 0, 0, 0, 0],
        Record::Test(t) => test_row(t),
        Record::End => [9, 0, 0, 0, 0, 0],
    }
}
