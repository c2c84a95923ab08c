// The reading of a book: its records from the front, refused by cause and place, or accepted, with where its rules and conditions stand.
ghost use Rattle.std.specs.Prelude.{◌≡◌, ◌<◌};
ghost use Rattle.book.specs.Judgement.{after, Within};
ghost use Rattle.book.specs.Read.{read_book, answer_of, placed_of};
ghost use Rattle.book.specs.Steps.{end_of, step_of, rule_noted, condition_noted, noted, no_places};

use crate::judgement::{Standing, judge};
use crate::record::{Record, record_at, size_of};
use crate::refusal::{Cause, MOST_BYTES, Refusal};

// How many rules and conditions an accepted book has.
#[derive(Clone, Copy, Debug, PartialEq, Eq)]
pub struct BookSize {
    pub rules: usize,
    pub conditions: usize,
}

// Where each rule's record stands, how many conditions the rule has, and where each condition's first test would stand; zeros after the last.
#[derive(Clone, Copy)]
pub struct Places {
    pub rules: [u16; 32],
    pub counts: [u8; 32],
    pub conditions: [u16; 192],
}

// What the reading of an accepted book has found.
#[derive(Clone, Copy)]
pub struct Found {
    pub size: BookSize,
    pub places: Places,
}

// What one record makes of the reading: it goes on behind the record, or is done.
#[derive(Clone, Copy)]
enum Step {
    On { record: Record, next: usize },
    Done(BookSize),
}

// After the end record: accepted, or 4 at the byte that follows.
#[tactic(auto, unfolding(crate::specs::Steps::end_of))]
fn end_of(book: &[u8], next: usize, s: Standing) -> Result<BookSize, Refusal>
    ensures { result ≡ end_of book.now next s }
{
    if next == book.len() {
        return Ok(BookSize {
            rules: s.rules,
            conditions: s.total,
        });
    }
    Err(Refusal {
        cause: Cause::Misplaced,
        place: next,
    })
}

// The record at `at`, judged by what those before it have left.
#[tactic(auto, unfolding(crate::specs::Steps::step_of, crate::specs::Steps::step_by, crate::specs::Steps::over_if, crate::specs::Steps::done))]
fn read_record(book: &[u8], at: usize, s: Standing) -> Result<Step, Refusal>
    ensures { result ≡ step_of book.now at s }
{
    let record = record_at(book, at)?;
    let from = at + 1;
    if let Err(cause) = judge(s, record, &book[from..]) {
        return Err(Refusal { cause, place: at });
    }
    if let Record::End = record {
        return Ok(Step::Done(end_of(book, from, s)?));
    }
    Ok(Step::On {
        record,
        next: at + size_of(record),
    })
}

// What a record that is taken leaves to the next.
#[tactic(auto, unfolding(crate::specs::Judgement::after))]
fn stood(s: Standing, r: Record) -> Standing
    requires { Within s }
    ensures { result ≡ after s r }
{
    match r {
        Record::Rule { number } => Standing {
            rules: s.rules + 1,
            last: number,
            conditions: 0,
            tests: 0,
            total: s.total,
        },
        Record::Condition => Standing {
            conditions: s.conditions + 1,
            tests: 0,
            total: s.total + 1,
            ..s
        },
        Record::Test(_) => Standing {
            tests: s.tests + 1,
            ..s
        },
        Record::End => s,
    }
}

impl Places {
    // None found yet.
    #[tactic(auto, unfolding(crate::specs::Steps::no_places))]
    fn none() -> Places
        ensures { result ≡ no_places }
    {
        Places {
            rules: [0; 32],
            counts: [0; 32],
            conditions: [0; 192],
        }
    }

    // Notes the rule whose record is at `at`.
    #[tactic(auto, unfolding(crate::specs::Steps::rule_noted))]
    fn note_rule(&mut self, s: Standing, at: usize)
        requires { at < 8192 }
        ensures { self.new ≡ rule_noted self.old s at }
    {
        let i = s.rules;
        if i < 32 {
            self.rules[i] = at as u16;
        }
    }

    // Notes the condition whose record is at `at`: its tests would stand behind it, and its rule has one condition more.
    #[tactic(auto, unfolding(crate::specs::Steps::condition_noted))]
    fn note_condition(&mut self, s: Standing, at: usize)
        requires { at < 8192 }
        ensures { self.new ≡ condition_noted self.old s at }
    {
        let n = s.rules;
        let c = s.conditions;
        let j = s.total;
        if n == 0 || 32 < n || 6 <= c || 192 <= j {
            return;
        }
        self.counts[n - 1] = (c + 1) as u8;
        self.conditions[j] = (at + 1) as u16;
    }

    // Notes one record more.
    #[tactic(auto, unfolding(crate::specs::Steps::noted))]
    fn note(&mut self, s: Standing, r: Record, at: usize)
        requires { at < 8192 }
        ensures { self.new ≡ noted self.old s r at }
    {
        match r {
            Record::Rule { .. } => self.note_rule(s, at),
            Record::Condition => self.note_condition(s, at),
            Record::Test(_) | Record::End => (),
        }
    }
}

// An accepted book's size and where its rules and conditions stand; or its refusal. Records vary in size, so the place is no count of turns.
pub fn find_places(book: &[u8]) -> Result<Found, Refusal>
    ensures { result ≡ placed_of (read_book book.now) }
{
    if MOST_BYTES < book.len() {
        return Err(Refusal {
            cause: Cause::BookTooLong,
            place: 0,
        });
    }
    let mut at: usize = 0;
    let mut standing = Standing {
        rules: 0,
        last: 0,
        conditions: 0,
        tests: 0,
        total: 0,
    };
    let mut places = Places::none();
    loop {
        match read_record(book, at, standing)? {
            Step::On { record, next } => {
                places.note(standing, record, at);
                standing = stood(standing, record);
                at = next;
            }
            Step::Done(size) => return Ok(Found { size, places }),
        }
    }
}

// An accepted book's size, or its refusal.
pub fn read(book: &[u8]) -> Result<BookSize, Refusal>
    ensures { result ≡ answer_of (read_book book.now) }
{
    let found = find_places(book)?;
    Ok(found.size)
}
