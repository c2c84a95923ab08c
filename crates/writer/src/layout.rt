// Rows laid out one behind the other, as the bytes of the book that they would be.
ghost use Rattle.std.specs.Prelude.{◌≡◌, ◌+◌, ◌≤◌, length, drop};
ghost use Rattle.numbers.specs.Spliced.{spliced};
ghost use Rattle.book.specs.declared.record.Record.TheVariants.{Rule};
ghost use Rattle.book.specs.Record.{test_size};
ghost use Rattle.writer.specs.Rows.{row_size};
ghost use Rattle.writer.specs.Bytes.{test_bytes, record_bytes};
ghost use Rattle.writer.specs.Layout.{wording_for, row_bytes, wording_size, laid, laid_size, row_count, unfit_at, CountedTo};

use crate::field::field_fits;
use crate::rows::{ROW, is_rule, is_unfit_rule, record_of, row_size};
use book::record::{Record, Test};
use book::refusal::MOST_BYTES;

// How many bytes a wording has.
pub const WORDING: usize = 24;

// A test's record at `at`.
#[tactic(auto, unfolding(book::specs::Record::test_size))]
fn put_test(out: &mut [u8], at: usize, t: Test)
    requires { at + test_size t ≤ length out.old }
    ensures { out.new ≡ spliced out.old at (test_bytes t) }
{
    match t {
        Test::Constant {
            place,
            relation,
            number,
        } => {
            out[at..at + 3].copy_from_slice(&[3, place, relation]);
            numbers::put_four(out, at + 3, number);
        }
        Test::Position {
            place,
            relation,
            condition,
            other,
        } => out[at..at + 5].copy_from_slice(&[4, place, relation, condition, other]),
        Test::Gap {
            place,
            condition,
            other,
            low,
            high,
        } => {
            out[at..at + 4].copy_from_slice(&[5, place, condition, other]);
            numbers::put_eight(out, at + 4, low.cast_unsigned());
            numbers::put_eight(out, at + 12, high.cast_unsigned());
        }
    }
}

// A rule's record at `at`.
fn put_rule(out: &mut [u8], at: usize, number: u16, wording: &[u8; WORDING])
    requires { at + 27 ≤ length out.old }
    ensures { out.new ≡ spliced out.old at (record_bytes (Rule number) wording.now) }
{
    out[at] = 1;
    numbers::put_two(out, at + 1, number);
    out[at + 3..at + 3 + WORDING].copy_from_slice(wording);
}

// How many bytes the book of the rows takes, its end record with them; of one that is too long, some number above the most.
pub fn book_length(rows: &[i64]) -> usize
    ensures { CountedTo 8192 (laid_size (row_count rows.now) rows.now) result }
{
    let mut length: usize = 1;
    for row in rows.as_chunks::<ROW>().0 {
        if MOST_BYTES < length {
            return length;
        }
        length += row_size(record_of(row));
    }
    length
}

// A rule row's wording: the first of those left, or one that the reader refuses where that is not there, or where the rule's number does not fit.
#[tactic(auto, unfolding(crate::specs::Layout::wording_for, crate::specs::Layout::first_wording))]
fn wording_for(row: &[i64; ROW], wordings: &[u8]) -> [u8; WORDING]
    ensures { result ≡ wording_for row.now wordings.now }
{
    match wordings.first_chunk::<WORDING>() {
        Some(first) if field_fits(row[1], 65535) => *first,
        _ => [255; WORDING],
    }
}

// A row laid out at `at`, a rule's with the first of the wordings left; how many bytes it takes. One of an unknown kind is a byte that is no kind.
#[tactic(auto, unfolding(crate::specs::Rows::span_of, book::specs::Record::size_of))]
fn lay_row(out: &mut [u8], at: usize, row: &[i64; ROW], wordings: &[u8]) -> usize
    requires { at + row_size row.now ≤ length out.old }
    ensures laid { out.new ≡ spliced out.old at (row_bytes row.now wordings.now) }
    ensures size { result ≡ row_size row.now }
{
    let said = record_of(row);
    match said {
        Ok(Record::Rule { number }) => put_rule(out, at, number, &wording_for(row, wordings)),
        Ok(Record::Condition) => out[at] = 2,
        Ok(Record::Test(t)) => put_test(out, at, t),
        Ok(Record::End) => out[at] = 9,
        Err(_) => out[at] = 0,
    }
    row_size(said)
}

// The wordings left behind a row.
#[tactic(auto, unfolding(crate::specs::Layout::wording_size))]
fn wordings_after<'a>(row: &[i64; ROW], wordings: &'a [u8]) -> &'a [u8]
    ensures { result.now ≡ drop (wording_size row.now) wordings.now }
{
    if is_rule(row) {
        return wordings.get(WORDING..).unwrap_or(&[]);
    }
    wordings
}

// The rows laid out from the front, and the end record behind them.
pub fn lay_rows(out: &mut [u8], rows: &[i64], wordings: &[u8])
    requires { laid_size (row_count rows.now) rows.now ≤ length out.old }
    ensures { out.new ≡ spliced out.old 0 (laid (row_count rows.now) rows.now wordings.now) }
{
    let mut at: usize = 0;
    let mut left = wordings;
    for row in rows.as_chunks::<ROW>().0 {
        at += lay_row(out, at, row, left);
        left = wordings_after(row, left);
    }
    out[at] = 9;
}

// Whether the record that would stand at `place` is a rule whose number does not fit.
pub fn is_unfit_at(rows: &[i64], place: usize) -> bool
    ensures { result ≡ unfit_at (row_count rows.now) rows.now place }
{
    let mut left = place;
    for row in rows.as_chunks::<ROW>().0 {
        if left == 0 {
            return is_unfit_rule(row);
        }
        left = left.saturating_sub(row_size(record_of(row)));
    }
    false
}
