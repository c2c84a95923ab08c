// A line of output, put together from texts and numbers. Where the writer says which bytes it holds, a call that succeeds adds what it says, and nothing else.
ghost use Rattle.std.specs.Prelude.{◌∷◌, [], OnOk};
ghost use Rattle.std.specs.Io.KnownBytes.{Appends};
ghost use Rattle.bookview.specs.Printed.{spaced, spaced_signed, three, line_of_two, line_of_three};

use std::io;
use std::io::Write;

// Each byte of `text`.
pub fn put<W: Write>(out: &mut W, text: &[u8]) -> io::Result<()>
    ensures { OnOk result (Appends (W.contents out.old) (W.contents out.new) text.now) }
{
    out.write_all(text)
}

// A space and n in decimal.
pub fn put_number<W: Write>(out: &mut W, n: u64) -> io::Result<()>
    ensures { OnOk result (Appends (W.contents out.old) (W.contents out.new) (spaced n)) }
{
    write!(out, " {n}")
}

// Three numbers, each behind a space.
#[tactic(auto, unfolding(crate::specs::Printed::three))]
pub fn put_three<W: Write>(out: &mut W, a: u64, b: u64, c: u64) -> io::Result<()>
    ensures { OnOk result (Appends (W.contents out.old) (W.contents out.new) (three a b c)) }
{
    put_number(out, a)?;
    put_number(out, b)?;
    put_number(out, c)
}

// A space and z in decimal, with a minus sign below zero.
pub fn put_signed<W: Write>(out: &mut W, z: i64) -> io::Result<()>
    ensures { OnOk result (Appends (W.contents out.old) (W.contents out.new) (spaced_signed z)) }
{
    write!(out, " {z}")
}

// Ends the line, and writes it out: who gives one book after the other sees each line before the next is taken in.
pub fn say<W: Write>(out: &mut W) -> io::Result<()>
    ensures { OnOk result (Appends (W.contents out.old) (W.contents out.new) (10 ∷ [])) }
{
    put(out, b"\n")?;
    out.flush()
}

// A whole line: a word and two numbers.
pub fn say_two<W: Write>(out: &mut W, word: &[u8], a: u64, b: u64) -> io::Result<()>
    ensures { OnOk result (Appends (W.contents out.old) (W.contents out.new) (line_of_two word.now a b)) }
{
    put(out, word)?;
    put_number(out, a)?;
    put_number(out, b)?;
    say(out)
}

// A whole line: a word and three numbers.
pub fn say_three<W: Write>(out: &mut W, word: &[u8], a: u64, b: u64, c: u64) -> io::Result<()>
    ensures { OnOk result (Appends (W.contents out.old) (W.contents out.new) (line_of_three word.now a b c)) }
{
    put(out, word)?;
    put_three(out, a, b, c)?;
    say(out)
}
