// A line: rule number, readings and wording. Each entry is written into the part of the line still free.
ghost use Rattle.std.specs.Prelude.{◌≡◌, ◌+◌, ◌≤◌, ◌<◌, length, take};
ghost use Rattle.numbers.specs.Spliced.{spliced};
ghost use Rattle.lines.specs.Line.{entry, entries, trimmed, ending, line_text, length_in, text_in};

use numbers::put_digits;
use reading::Reading;

// How many bytes of a wording stand before its trailing spaces.
pub fn trimmed_length(wording: &[u8]) -> usize
    ensures { (take result wording.now ≡ trimmed wording.now) × (result ≤ length wording.now) }
{
    for last in (0..wording.len()).rev() {
        if wording[last] != 32 {
            return last + 1;
        }
    }
    0
}

// One entry at the front of what is still free; how many bytes it took.
pub fn put_entry(free: &mut [u8], r: Reading) -> usize
    requires { length (entry r) ≤ length free.old }
    ensures { (result ≡ length (entry r)) × (free.new ≡ spliced free.old 0 (entry r)) }
{
    free[0] = 32;
    let mut at: usize = 1;
    at += put_digits(&mut free[at..], r.line);
    free[at] = 47;
    at += 1;
    at += put_digits(&mut free[at..], r.column);
    free[at] = 47;
    at += 1;
    at += put_digits(&mut free[at..], r.value);
    at
}

// The entries of some readings.
pub fn put_entries(free: &mut [u8], readings: &[Reading]) -> usize
    requires { length (entries readings.now) ≤ length free.old }
    ensures { (result ≡ length (entries readings.now)) × (free.new ≡ spliced free.old 0 (entries readings.now)) }
{
    let mut at: usize = 0;
    for r in readings {
        at += put_entry(&mut free[at..], *r);
    }
    at
}

// A space, "|", the first n bytes of the wording, and a newline.
pub fn put_ending(free: &mut [u8], wording: &[u8], n: usize)
    requires { (take n wording.now ≡ trimmed wording.now) × ((n ≤ length wording.now) × (length (ending wording.now) ≤ length free.old)) }
    ensures { free.new ≡ spliced free.old 0 (ending wording.now) }
{
    free[0] = 32;
    free[1] = 124;
    free[2..2 + n].copy_from_slice(&wording[..n]);
    free[2 + n] = 10;
}

// The line at the front of a buffer that has place for it; its length, or none where the buffer has no place: then nothing is written. It is put together aside, as no line is longer
// than 230 bytes, and copied where it fits.
pub fn put_line(
    buffer: &mut [u8],
    number: u32,
    readings: [Reading; 6],
    n: usize,
    wording: &[u8],
) -> Option<usize>
    requires { (number < 65536) × ((n ≤ 6) × (length wording.now ≤ 24)) }
    ensures { (result ≡ length_in buffer.old (line_text number (take n readings) wording.now)) × ((buffer.new ≡ text_in buffer.old (line_text number (take n readings) wording.now)) × (length (line_text number (take n readings) wording.now) ≤ 230)) }
{
    let shown = trimmed_length(wording);
    let mut text = [0u8; 230];
    let mut at = put_digits(&mut text[..], number);
    at += put_entries(&mut text[at..], &readings[..n]);
    put_ending(&mut text[at..], wording, shown);
    let total = at + shown + 3;
    if buffer.len() < total {
        return None;
    }
    buffer[..total].copy_from_slice(&text[..total]);
    Some(total)
}
