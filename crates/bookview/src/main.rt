// Shows rule books: each as the reader takes it apart, or its refusal with number and place.
// Standard input is a row of books, each behind twelve bytes: its length (4) and a rule number whose wording is asked for (8), big-endian.
#![tactic(auto)]

mod line;

ghost use Rattle.std.specs.Prelude.{OnOk};
ghost use Rattle.std.specs.Io.KnownBytes.{Appends};
ghost use Rattle.book.specs.declared.record.Test.TheVariants.{Position, Gap};
ghost use Rattle.book.specs.Refusals.{number_of};
ghost use Rattle.bookview.specs.Printed.{bounds, line_of_two, test_line};

use book::reader::{Found, find_places};
use book::record::Test;
use book::refusal::Refusal;
use book::rules::{tests_at, wording_place};
use line::{put, put_number, put_signed, put_three, say, say_three, say_two};
use numbers::{eight_at, four_at, two_at};
use std::io;
use std::io::{BufWriter, Read, Write};

// The longest book that is taken in: longer than any that is accepted, so that refusal 1 can be seen.
const MOST: usize = 12000;

fn show_position<W: Write>(
    out: &mut W,
    place: u8,
    relation: u8,
    condition: u8,
    other: u8,
) -> io::Result<()>
    ensures { OnOk result (Appends (W.contents out.old) (W.contents out.new) (test_line (Position place relation condition other))) }
{
    put(out, b"position")?;
    put_number(out, place as u64)?;
    put_number(out, relation as u64)?;
    put_number(out, condition as u64)?;
    put_number(out, other as u64)?;
    say(out)
}

// A lowest and a highest number, each behind a space.
#[tactic(auto, unfolding(crate::specs::Printed::bounds))]
fn put_bounds<W: Write>(out: &mut W, low: i64, high: i64) -> io::Result<()>
    ensures { OnOk result (Appends (W.contents out.old) (W.contents out.new) (bounds low high)) }
{
    put_signed(out, low)?;
    put_signed(out, high)
}

fn show_gap<W: Write>(
    out: &mut W,
    place: u8,
    condition: u8,
    other: u8,
    low: i64,
    high: i64,
) -> io::Result<()>
    ensures { OnOk result (Appends (W.contents out.old) (W.contents out.new) (test_line (Gap place condition other low high))) }
{
    put(out, b"gap")?;
    put_three(out, place as u64, condition as u64, other as u64)?;
    put_bounds(out, low, high)?;
    say(out)
}

// A test: its kind and its numbers, in the order of its record.
fn show_test<W: Write>(out: &mut W, t: Test) -> io::Result<()>
    ensures { OnOk result (Appends (W.contents out.old) (W.contents out.new) (test_line t)) }
{
    match t {
        Test::Constant {
            place,
            relation,
            number,
        } => say_three(
            out,
            b"constant",
            place as u64,
            relation as u64,
            number as u64,
        ),
        Test::Position {
            place,
            relation,
            condition,
            other,
        } => show_position(out, place, relation, condition, other),
        Test::Gap {
            place,
            condition,
            other,
            low,
            high,
        } => show_gap(out, place, condition, other, low, high),
    }
}

// The condition whose first test would stand at `at`, and its tests.
fn show_condition<W: Write>(out: &mut W, book: &[u8], at: usize) -> io::Result<()> {
    let found = tests_at(book, at);
    say_two(out, b"condition", at as u64, found.count as u64)?;
    for t in found.tests.iter().take(found.count) {
        show_test(out, *t)?;
    }
    Ok(())
}

// The number of the rule whose record is at `at`.
fn rule_number(book: &[u8], at: usize) -> u64 {
    if book.len() < 27 || book.len() - 27 < at {
        return 0;
    }
    two_at(book, at + 1) as u64
}

// The rule whose record is at `place`, and its conditions.
fn show_rule<W: Write>(
    out: &mut W,
    book: &[u8],
    place: usize,
    conditions: &[u16],
) -> io::Result<()> {
    let number = rule_number(book, place);
    say_three(out, b"rule", place as u64, number, conditions.len() as u64)?;
    for at in conditions {
        show_condition(out, book, *at as usize)?;
    }
    Ok(())
}

// The rules that were found, each with its conditions: the first of those that no rule before has.
fn show_rules<W: Write>(out: &mut W, book: &[u8], found: &Found) -> io::Result<()> {
    let places = &found.places;
    let mut left = &places.conditions[..];
    for (place, count) in places
        .rules
        .iter()
        .zip(&places.counts)
        .take(found.size.rules)
    {
        let (own, rest) = left.split_at(left.len().min(*count as usize));
        show_rule(out, book, *place as usize, own)?;
        left = rest;
    }
    Ok(())
}

// A refusal with its place, behind a word.
fn say_refusal<W: Write>(out: &mut W, word: &[u8], refusal: Refusal) -> io::Result<()>
    ensures { OnOk result (Appends (W.contents out.old) (W.contents out.new) (line_of_two word.now (number_of refusal.cause) refusal.place)) }
{
    say_two(
        out,
        word,
        refusal.cause.number() as u64,
        refusal.place as u64,
    )
}

// The book as it is taken apart, or its refusal.
fn show_book<W: Write>(out: &mut W, book: &[u8]) -> io::Result<()> {
    match find_places(book) {
        Err(refusal) => say_refusal(out, b"!", refusal),
        Ok(found) => {
            let size = found.size;
            say_two(out, b"accepted", size.rules as u64, size.conditions as u64)?;
            show_rules(out, book, &found)
        }
    }
}

// Where the wording of the rule of that number stands, or the refusal.
fn show_wording<W: Write>(out: &mut W, book: &[u8], number: u64) -> io::Result<()> {
    match wording_place(book, number) {
        Err(refusal) => say_refusal(out, b"wording !", refusal),
        Ok(at) => {
            put(out, b"wording")?;
            put_number(out, at as u64)?;
            say(out)
        }
    }
}

// Takes in a book of `length` bytes and shows it, with the place of the wording asked for; whether there was one, and room for it.
fn show_next_book<R: Read, W: Write>(
    input: &mut R,
    out: &mut W,
    space: &mut [u8],
    length: usize,
    number: u64,
) -> io::Result<bool> {
    if space.len() < length {
        return Ok(false);
    }
    let book = &mut space[0..length];
    if input.read_exact(book).is_err() {
        return Ok(false);
    }
    show_book(out, book)?;
    show_wording(out, book, number)?;
    Ok(true)
}

// Takes in the next twelve bytes and the book behind them, and shows it; whether there was one. A read that fails counts as the input's end.
fn show_next<R: Read, W: Write>(input: &mut R, out: &mut W) -> io::Result<bool> {
    let mut head = [0u8; 12];
    if input.read_exact(&mut head).is_err() {
        return Ok(false);
    }
    let length = four_at(&head, 0);
    let number = eight_at(&head, 4);
    let mut space = [0u8; MOST];
    show_next_book(input, out, &mut space, length as usize, number)
}

// Nothing says that the input ends, and a loop has to: so it counts its turns.
fn main(rt: HostRuntime) -> io::Result<()> {
    let mut input = rt.reader();
    let mut out = BufWriter::new(rt.alloc(), io::writer(&rt))?;
    for _ in 0..1000000u32 {
        if !show_next(&mut input, &mut out)? {
            break;
        }
    }
    out.flush()
}
