// The desk's program: a rule book and a file of steps in, answers and complaints out. What matters is in the library.
#![tactic(auto)]

mod input;
mod out;
mod steps;

ghost use Rattle.std.specs.Prelude.{◌≤◌, length, IfOk, OnOk};
ghost use Rattle.std.specs.Io.KnownBytes.{Appends};
ghost use Rattle.book.specs.Refusals.{number_of};
ghost use Rattle.desk.specs.Printed.{placed_refusal_line};

use book::refusal::{Cause, Refusal};
use input::read_rest;
use out::{SPACE, flush, put, put_number};
use std::io::{BufWriter, Read, Write};
use std::{fs, io};
use steps::{CHUNK, run};

// One byte more than the longest book, so that a longer file is refused as a book that is too long.
const MOST: usize = 8193;

// The room for 256 readings and 2,048 tokens.
const ROOM: usize = 22384;

const READINGS: u64 = 256;

const TOKENS: u64 = 2048;

// A file that is open, and how many of its bytes are read.
#[derive(Drop)]
struct Begun<F> {
    file: F,
    have: usize,
}

// A refusal with its place is all that is printed.
fn refuse<W: Write>(out: &mut W, refusal: Refusal) -> io::Result<()>
    ensures { OnOk result (Appends (W.contents out.old) (W.contents out.new) (placed_refusal_line (number_of refusal.cause) refusal.place)) }
{
    put(out, b"!")?;
    put_number(out, refusal.cause.number() as u64)?;
    put_number(out, refusal.place as u64)?;
    put(out, b"\n")?;
    flush(out)
}

// Opens a room for the book and goes through the steps, the first `have` bytes of which are read.
fn serve<R: Read, W: Write>(
    book: &[u8],
    file: &mut R,
    chunk: &mut [u8],
    have: usize,
    out: &mut W,
) -> io::Result<()>
    requires { have ≤ length chunk.old }
{
    let mut room = [0u8; ROOM];
    match malletfrond::open(&mut room, book, READINGS, TOKENS) {
        Ok(_) => run(&mut room, file, chunk, have, out),
        Err(refusal) => refuse(out, refusal),
    }
}

// Reads a first part of a file into `space`, if it could be opened.
fn begin<F: Read + Drop>(opened: io::Result<F>, space: &mut [u8]) -> io::Result<Begun<F>>
    ensures { IfOk result (λ begun. begun.have ≤ length space.old) }
{
    let mut file = opened?;
    let have = file.read(space)?;
    Ok(Begun { file, have })
}

// Both files are open and a first part of each is read before either is judged: a name that cannot be read counts as one that cannot be opened.
fn main(rt: HostRuntime) -> io::Result<()> {
    let mut out = BufWriter::with_capacity(rt.alloc(), SPACE, io::writer(&rt))?;
    let mut space = [0u8; MOST];
    let mut chunk = [0u8; CHUNK];
    let rules = fs::open(&rt, "rules.bk");
    let steps = fs::open(&rt, "steps.bk");
    let rules = begin(rules, &mut space);
    let steps = begin(steps, &mut chunk);
    match (rules, steps) {
        (Ok(mut rules), Ok(mut steps)) => {
            let length = read_rest(&mut rules.file, &mut space, rules.have);
            serve(
                &space[0..length],
                &mut steps.file,
                &mut chunk,
                steps.have,
                &mut out,
            )
        }
        _ => {
            let unread = Refusal {
                cause: Cause::NoSuchFile,
                place: 0,
            };
            refuse(&mut out, unread)
        }
    }
}
