// The two calls of the writer of books for programs in C and Rust: numbers and slices only, a refusal's number or 0. Accepted, the results are written through the
// numbers lent for them; refused, the refusal's place is; what is not written stays as it was.
ghost use Rattle.std.specs.Prelude.{[], ◌∷◌};
ghost use Rattle.malletfrond_c.specs.Writing.{WritesOut, RowsOut};

// `writer::write::write_book`: the length of the book through `length`.
#[unsafe(no_mangle)]
pub extern "C" fn malletfrond_write_book(
    rows: &[i64],
    wordings: &[u8],
    buffer: &mut [u8],
    length: &mut u64,
    place: &mut u64,
) -> u64
    ensures { WritesOut rows.now wordings.now buffer.old (length.old ∷ []) place.old result (length.new ∷ []) place.new buffer.new }
{
    match writer::write::write_book(rows, wordings, buffer) {
        Ok(n) => {
            *length = n as u64;
            0
        }
        Err(unwritten) => {
            *place = unwritten.place as u64;
            unwritten.cause.number() as u64
        }
    }
}

// `writer::read::read_rows`: how many records and rules there are through `records` and `rules`.
#[unsafe(no_mangle)]
pub extern "C" fn malletfrond_read_rows(
    book: &[u8],
    rows: &mut [i64],
    wordings: &mut [u8],
    records: &mut u64,
    rules: &mut u64,
    place: &mut u64,
) -> u64
    ensures { RowsOut book.now rows.old wordings.old (records.old ∷ rules.old ∷ []) place.old result (records.new ∷ rules.new ∷ []) place.new rows.new wordings.new }
{
    match writer::read::read_rows(book, rows, wordings) {
        Ok(read) => {
            *records = read.records as u64;
            *rules = read.rules as u64;
            0
        }
        Err(unread) => {
            *place = unread.place as u64;
            unread.cause.number() as u64
        }
    }
}
