// The public calls for programs in C and Rust: numbers and slices only. Each answers a refusal's number, 0 for accepted, and writes its results through numbers lent
// to it; a result that is not there leaves the number lent for it as it was.
#![tactic(auto)]

ghost use Rattle.matching.specs.Step.{add, remove};
ghost use Rattle.malletfrond.specs.Promise.{Checks};
ghost use Rattle.malletfrond_c.specs.Exported.{OpensOut, StepsOut, CountsOut, LinesOut, WordsOut};
ghost use Rattle.malletfrond_c.specs.Told.{Told};

mod writing;

use book::refusal::Refusal;
use malletfrond::Stepped;

// `malletfrond::open`; the place of a refusal through `place`.
#[unsafe(no_mangle)]
pub extern "C" fn malletfrond_open(
    room: &mut [u8],
    book: &[u8],
    e: u64,
    t: u64,
    place: &mut u64,
) -> u64
    ensures { OpensOut room.old book.now e t place.old result place.new room.new }
{
    match malletfrond::open(room, book, e, t) {
        Ok(_) => 0,
        Err(refusal) => {
            *place = refusal.place as u64;
            refusal.cause.number() as u64
        }
    }
}

// What a step answered, through three numbers.
fn told(
    answer: Result<Stepped, Refusal>,
    readings: &mut u64,
    tokens: &mut u64,
    changed: &mut u64,
) -> u64
    ensures { Told answer readings.old tokens.old changed.old result readings.new tokens.new changed.new }
{
    match answer {
        Ok(step) => {
            *readings = step.readings as u64;
            *tokens = step.tokens as u64;
            *changed = step.changed as u64;
            0
        }
        Err(refusal) => refusal.cause.number() as u64,
    }
}

// `malletfrond::add`.
#[unsafe(no_mangle)]
pub extern "C" fn malletfrond_add(
    room: &mut [u8],
    line: u32,
    column: u32,
    value: u32,
    readings: &mut u64,
    tokens: &mut u64,
    appeared: &mut u64,
) -> u64
    ensures { StepsOut room.old (add (record { line = line; column = column; value = value })) readings.old tokens.old appeared.old result readings.new tokens.new appeared.new room.new }
{
    let answer = malletfrond::add(room, line, column, value);
    told(answer, readings, tokens, appeared)
}

// `malletfrond::remove`.
#[unsafe(no_mangle)]
pub extern "C" fn malletfrond_remove(
    room: &mut [u8],
    line: u32,
    column: u32,
    value: u32,
    readings: &mut u64,
    tokens: &mut u64,
    vanished: &mut u64,
) -> u64
    ensures { StepsOut room.old (remove (record { line = line; column = column; value = value })) readings.old tokens.old vanished.old result readings.new tokens.new vanished.new room.new }
{
    let answer = malletfrond::remove(room, line, column, value);
    told(answer, readings, tokens, vanished)
}

// `malletfrond::counts`.
#[unsafe(no_mangle)]
pub extern "C" fn malletfrond_counts(
    room: &[u8],
    readings: &mut u64,
    tokens: &mut u64,
    complete: &mut u64,
) -> u64
    ensures { CountsOut room.now readings.old tokens.old complete.old result readings.new tokens.new complete.new }
{
    match malletfrond::counts(room) {
        Ok(counts) => {
            *readings = counts.readings as u64;
            *tokens = counts.tokens as u64;
            *complete = counts.complete as u64;
            0
        }
        Err(refusal) => refusal.cause.number() as u64,
    }
}

// `malletfrond::line`; the length of the line through `length`.
#[unsafe(no_mangle)]
pub extern "C" fn malletfrond_line(room: &[u8], k: u64, buffer: &mut [u8], length: &mut u64) -> u64
    ensures { LinesOut room.now k buffer.old length.old result length.new buffer.new }
{
    match malletfrond::line(room, k, buffer) {
        Ok(n) => {
            *length = n as u64;
            0
        }
        Err(refusal) => refusal.cause.number() as u64,
    }
}

// `malletfrond::wording` and its refusal: the offset of the 24 bytes in the book, or the place of a refusal, through `place`.
#[unsafe(no_mangle)]
pub extern "C" fn malletfrond_wording(book: &[u8], number: u64, place: &mut u64) -> u64
    ensures { WordsOut book.now number result place.new }
{
    match book::rules::wording_place(book, number) {
        Ok(offset) => {
            *place = offset as u64;
            0
        }
        Err(missing) => {
            *place = missing.place as u64;
            missing.cause.number() as u64
        }
    }
}

// `malletfrond::check`.
#[unsafe(no_mangle)]
pub extern "C" fn malletfrond_check(room: &[u8]) -> bool
    ensures { Checks room.now result }
{
    malletfrond::check(room)
}
