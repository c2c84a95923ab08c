// The steps: taken from a file as long as it likes, part after part.
ghost use Rattle.std.specs.Prelude.{◌≤◌, length, ◌≡◌, None, IfOk, OnOk, IfSome};
ghost use Rattle.std.specs.Io.KnownBytes.{Appends};
ghost use Rattle.book.specs.Refusals.{number_of};
ghost use Rattle.desk.specs.Printed.{answer_line, refusal_line};

use crate::input::refill;
use crate::out::{flush, put, put_number};
use book::refusal::{Cause, Refusal};
use malletfrond::Stepped;
use std::io;
use std::io::{Read, Write};

// How many bytes of the steps are held at a time.
pub const CHUNK: usize = 4096;

// The bytes of an addition or a removal: its kind, line, column, value.
const STEP: usize = 13;

const ADD: u8 = 1;

const REMOVE: u8 = 2;

const LIST: u8 = 3;

// No line is longer.
const LINE: usize = 230;

// A refusal without its place.
fn put_refusal<W: Write>(out: &mut W, cause: Cause) -> io::Result<()>
    ensures { OnOk result (Appends (W.contents out.old) (W.contents out.new) (refusal_line (number_of cause))) }
{
    put(out, b"!")?;
    put_number(out, cause.number() as u64)?;
    put(out, b"\n")
}

// The answer to an addition or a removal.
fn show<W: Write>(out: &mut W, sign: &[u8], answer: Result<Stepped, Refusal>) -> io::Result<()>
    ensures { OnOk result (Appends (W.contents out.old) (W.contents out.new) (answer_line sign.now answer)) }
{
    match answer {
        Ok(step) => {
            put(out, sign)?;
            put_number(out, step.readings as u64)?;
            put_number(out, step.tokens as u64)?;
            put_number(out, step.changed as u64)?;
            put(out, b"\n")
        }
        Err(refusal) => put_refusal(out, refusal.cause),
    }
}

// How many complaints there are.
fn complaints(room: &[u8]) -> usize {
    match malletfrond::counts(room) {
        Ok(counts) => counts.complete,
        Err(_) => 0,
    }
}

// Complaint k as a line.
fn show_line<W: Write>(room: &[u8], out: &mut W, k: usize) -> io::Result<()> {
    let mut line = [0u8; LINE];
    match malletfrond::line(room, k as u64, &mut line) {
        Ok(length) if length <= LINE => put(out, &line[..length]),
        _ => Ok(()),
    }
}

// All complaints, behind how many they are.
fn list<W: Write>(room: &[u8], out: &mut W) -> io::Result<()> {
    let count = complaints(room);
    put(out, b"=")?;
    put_number(out, count as u64)?;
    put(out, b"\n")?;
    for k in 0..count {
        show_line(room, out, k)?;
    }
    Ok(())
}

// The addition or removal at the front of `step`.
fn change<W: Write>(room: &mut [u8], step: &[u8], out: &mut W) -> io::Result<()>
    requires { 13 ≤ length step.now }
{
    let line = numbers::four_at(step, 1);
    let column = numbers::four_at(step, 5);
    let value = numbers::four_at(step, 9);
    if step[0] == ADD {
        show(out, b"+", malletfrond::add(room, line, column, value))
    } else {
        show(out, b"-", malletfrond::remove(room, line, column, value))
    }
}

// What cannot be taken as a step ends the run with its refusal.
fn end<W: Write>(out: &mut W, cause: Cause) -> io::Result<Option<usize>>
    ensures size { IfOk result (λ taken. taken ≡ None) }
    ensures printed { OnOk result (Appends (W.contents out.old) (W.contents out.new) (refusal_line (number_of cause))) }
{
    put_refusal(out, cause)?;
    Ok(None)
}

// The step at the front of what is left; how many bytes it had, none if it was the end.
fn take<W: Write>(room: &mut [u8], left: &[u8], out: &mut W) -> io::Result<Option<usize>>
    ensures { IfOk result (λ taken. IfSome taken (λ size. size ≤ length left.now)) }
{
    let Some(kind) = left.first() else {
        return Ok(None);
    };
    match *kind {
        LIST => {
            list(room, out)?;
            Ok(Some(1))
        }
        ADD | REMOVE => {
            if left.len() < STEP {
                return end(out, Cause::CutShort);
            }
            change(room, left, out)?;
            Ok(Some(STEP))
        }
        _ => end(out, Cause::UnknownKind),
    }
}

// Goes through the steps, the first `have` bytes of which are read. Nothing says that a file ends, and a loop has to: so it counts its turns.
pub fn run<R: Read, W: Write>(
    room: &mut [u8],
    file: &mut R,
    chunk: &mut [u8],
    mut have: usize,
    out: &mut W,
) -> io::Result<()>
    requires { have ≤ length chunk.old }
{
    let mut at: usize = 0;
    for _ in 0..u64::MAX {
        if have - at < STEP {
            have = refill(file, chunk, at, have);
            at = 0;
        }
        let Some(size) = take(room, &chunk[at..have], out)? else {
            break;
        };
        at += size;
    }
    flush(out)
}
