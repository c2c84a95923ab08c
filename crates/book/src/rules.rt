// What the matcher and the line need of a book: a rule's wording by its number, and the tests of a condition at an offset.
ghost use Rattle.std.specs.Prelude.{◌≡◌, ℕ, ◌+◌, ◌≤◌, ◌<◌, length, take, get_or};
ghost use Rattle.book.specs.Read.{read_book};
ghost use Rattle.book.specs.Record.{record_at};
ghost use Rattle.book.specs.Tests.{test_in, tests_at, eight};
ghost use Rattle.book.specs.Wording.{rule_wording, wording_place, refusal_in, sought};

use crate::reader::find_places;
use crate::record::{Record, Test, record_at, test_size};
use crate::refusal::{Cause, MOST_TESTS, Refusal};

// The first of the rules' places whose record has that number: its wording stands three bytes into it.
fn seek(book: &[u8], places: &[u16], number: u64) -> Result<usize, Refusal>
    requires { (k : ℕ) → k < length places.now → get_or places.now k 0 + 27 ≤ length book.now }
    ensures { result ≡ sought book.now places.now number }
{
    for place in places {
        let at = *place as usize;
        if numbers::two_at(book, at + 1) as u64 == number {
            return Ok(at + 3);
        }
    }
    Err(Refusal {
        cause: Cause::NoSuchRule,
        place: 0,
    })
}

// The offset of the 24 bytes of wording of the rule of that number.
#[tactic(auto, using(crate::proofs::Wordings::rules_few))]
pub fn wording_place(book: &[u8], number: u64) -> Result<usize, Refusal>
    ensures { result ≡ wording_place (read_book book.now) number }
{
    let found = find_places(book)?;
    let places = &found.places.rules[..found.size.rules];
    seek(book, places, number)
}

// The 24 bytes of wording of the rule of that number, or an empty part.
pub fn wording<'a>(book: &'a [u8], number: u64) -> &'a [u8]
    ensures { result.now ≡ rule_wording (read_book book.now) number }
{
    match wording_place(book, number) {
        Ok(from) => {
            let to = from + 24;
            &book[from..to]
        }
        Err(_) => &book[0..0],
    }
}

// Why there is no wording of that number: the book's refusal, then 17; none where there is one.
#[tactic(auto, unfolding(crate::specs::Wording::refusal_in))]
pub fn wording_refusal(book: &[u8], number: u64) -> Option<Refusal>
    ensures { result ≡ refusal_in (wording_place (read_book book.now) number) }
{
    wording_place(book, number).err()
}

// The tests of a condition: the first `count` of eight, filled up with a test that every reading passes.
#[derive(Clone, Copy)]
pub struct Tests {
    pub tests: [Test; 8],
    pub count: usize,
}

// The test that stands at `at`, if the record there is one.
#[tactic(auto, unfolding(crate::specs::Tests::test_in))]
fn test_at(book: &[u8], at: usize) -> Option<Test>
    ensures { result ≡ test_in (record_at book.now at) }
{
    let Record::Test(t) = record_at(book, at).ok()? else {
        return None;
    };
    Some(t)
}

// The tests that stand one after the other from `at` on: eight at most.
pub fn tests_at(book: &[u8], at: usize) -> Tests
    ensures count { result.count ≡ length (tests_at book.now at) }
    ensures tests { result.tests ≡ eight (tests_at book.now at) }
{
    let blank = Test::Constant {
        place: 0,
        relation: 5,
        number: 0,
    };
    let mut tests = [blank; 8];
    let mut place = at;
    for count in 0..MOST_TESTS {
        let Some(t) = test_at(book, place) else {
            return Tests { tests, count };
        };
        tests[count] = t;
        place += test_size(t);
    }
    Tests {
        tests,
        count: MOST_TESTS,
    }
}
