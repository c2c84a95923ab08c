// Output: texts and numbers, written to a writer that gathers them. Where the writer says which bytes it holds, a call that succeeds adds what it says, and nothing else.
ghost use Rattle.std.specs.Prelude.{OnOk};
ghost use Rattle.std.specs.Io.KnownBytes.{Appends, Keeps};
ghost use Rattle.desk.specs.Printed.{spaced};

use std::io;
use std::io::Write;

// How many bytes of output are gathered before they are written out.
pub const SPACE: usize = 4096;

// Writes out what is gathered.
pub fn flush<W: Write>(out: &mut W) -> io::Result<()>
    ensures { Keeps (W.contents out.old) (W.contents out.new) }
{
    out.flush()
}

// Each byte of `text`.
pub fn put<W: Write>(out: &mut W, text: &[u8]) -> io::Result<()>
    ensures { OnOk result (Appends (W.contents out.old) (W.contents out.new) text.now) }
{
    out.write_all(text)
}

// A space and n in decimal.
pub fn put_number<W: Write>(out: &mut W, n: u64) -> io::Result<()>
    ensures { OnOk result (Appends (W.contents out.old) (W.contents out.new) (spaced n)) }
{
    write!(out, " {n}")
}
