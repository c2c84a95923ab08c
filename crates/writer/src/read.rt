// The rows and wordings of a book.
ghost use Rattle.std.specs.Prelude.{◌≡◌, ℕ, ◌+◌, ◌*◌, ◌≤◌, ◌<◌, length, get_or};
ghost use Rattle.std.specs.Iterator.{YieldsFirst, item_count};
ghost use Rattle.numbers.specs.Spliced.{spliced};
ghost use Rattle.writer.specs.Values.{rows_of_records, records_in, wordings_at};
ghost use Rattle.writer.specs.Left.{records_left};
ghost use Rattle.writer.specs.Promise.{Reads};

use crate::layout::WORDING;
use crate::rows::{ROW, row_of};
use book::reader::find_places;
use book::record::{Record, record_at, size_of};
use book::refusal::{Cause, Refusal};

// How many records and rules a book has.
#[derive(Clone, Copy, Debug, PartialEq, Eq)]
pub struct RowsRead {
    pub records: usize,
    pub rules: usize,
}

// The records of a book from a place on, up to its end record or to one that cannot be taken apart.
#[derive(Drop)]
struct Records<'a> {
    book: &'a [u8],
    at: usize,
}

impl<'a> Iterator for Records<'a> {
    type Item = Record;

    ghost next_gives = { YieldsFirst records_left };

    ghost remaining = { item_count records_left };

    fn next(&mut self) -> Option<Record> {
        let record = record_at(self.book, self.at).ok()?;
        if let Record::End = record {
            return None;
        }
        self.at += size_of(record);
        Some(record)
    }
}

// How many records a book has before its end record, or before one that cannot be taken apart.
fn record_count(book: &[u8]) -> usize
    ensures { result ≡ length (records_in book.now) }
{
    Records { book, at: 0 }.count()
}

// The rows of a book's records, from the front.
fn put_rows(book: &[u8], rows: &mut [i64])
    requires { length (rows_of_records (records_in book.now)) ≤ length rows.old }
    ensures { rows.new ≡ spliced rows.old 0 (rows_of_records (records_in book.now)) }
{
    for (k, record) in (Records { book, at: 0 }).enumerate() {
        let at = k * ROW;
        rows[at..at + ROW].copy_from_slice(&row_of(record));
    }
}

// The wordings of the rules whose records stand at the places, from the front.
fn put_wordings(book: &[u8], places: &[u16], wordings: &mut [u8])
    requires inside { (k : ℕ) → k < length places.now → get_or places.now k 0 + 27 ≤ length book.now }
    requires room { length places.now * 24 ≤ length wordings.old }
    ensures { wordings.new ≡ spliced wordings.old 0 (wordings_at book.now places.now) }
{
    for (i, place) in places.iter().enumerate() {
        let from = *place as usize + 3;
        let at = i * WORDING;
        wordings[at..at + WORDING].copy_from_slice(&book[from..from + WORDING]);
    }
}

// The rows and wordings of a book; or its refusal, then 19.
#[tactic(auto, using(book::proofs::Wordings::rules_few))]
pub fn read_rows(book: &[u8], rows: &mut [i64], wordings: &mut [u8]) -> Result<RowsRead, Refusal>
    ensures { Reads book.now rows.old wordings.old result rows.new wordings.new }
{
    let found = find_places(book)?;
    let rules = found.size.rules;
    let records = record_count(book);
    if rows.len() / ROW < records || wordings.len() / WORDING < rules {
        return Err(Refusal {
            cause: Cause::OutputTooShort,
            place: 0,
        });
    }
    put_rows(book, rows);
    put_wordings(book, &found.places.rules[..rules], wordings);
    Ok(RowsRead { records, rules })
}
