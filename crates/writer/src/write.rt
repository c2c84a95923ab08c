// A book written from rows and wordings: laid out aside, judged by the reader, and then written.
ghost use Rattle.std.specs.Prelude.{◌≡◌, ◌≤◌, length};
ghost use Rattle.writer.specs.Layout.{laid_size, row_count};
ghost use Rattle.writer.specs.Promise.{mended, Judges, Writes};

use crate::layout::{book_length, is_unfit_at, lay_rows};
use book::reader::read;
use book::refusal::{Cause, MOST_BYTES, Refusal};

// The reader's refusal of the record at a place; of a rule whose number does not fit, 6 also where the reader sees it behind rule 65,535 and says 5.
fn mend(rows: &[i64], refusal: Refusal) -> Refusal
    ensures { result ≡ mended rows.now refusal }
{
    if refusal.cause == Cause::NumberNotAbove && is_unfit_at(rows, refusal.place) {
        return Refusal {
            cause: Cause::BadBody,
            ..refusal
        };
    }
    refusal
}

// What the reader says of a book laid out, then 19; the book in the buffer where it is accepted and has room.
fn judge_laid(rows: &[i64], laid: &[u8], buffer: &mut [u8]) -> Result<usize, Refusal>
    ensures { Judges rows.now laid.now buffer.old result buffer.new }
{
    match read(laid) {
        Err(refusal) => Err(mend(rows, refusal)),
        Ok(_) if buffer.len() < laid.len() => Err(Refusal {
            cause: Cause::OutputTooShort,
            place: 0,
        }),
        Ok(_) => {
            buffer[..laid.len()].copy_from_slice(laid);
            Ok(laid.len())
        }
    }
}

// The book of the rows and wordings at the front of the buffer; or the reader's refusal, then 19.
pub fn write_book(rows: &[i64], wordings: &[u8], buffer: &mut [u8]) -> Result<usize, Refusal>
    ensures { Writes rows.now wordings.now buffer.old result buffer.new }
{
    let length = book_length(rows);
    if MOST_BYTES < length {
        return Err(Refusal {
            cause: Cause::BookTooLong,
            place: 0,
        });
    }
    let mut space = [0u8; MOST_BYTES];
    let laid = &mut space[..length];
    lay_rows(laid, rows, wordings);
    judge_laid(rows, laid, buffer)
}
