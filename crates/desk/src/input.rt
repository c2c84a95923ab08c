// Input: a file's bytes, taken into an array of which the first `have` are read.
ghost use Rattle.std.specs.Prelude.{◌≤◌, length};

use std::io::Read;

// One read into `space`; how many bytes it gave. A read that fails counts as the file's end.
fn read_some<R: Read>(file: &mut R, space: &mut [u8]) -> usize
    ensures { result ≤ length space.old }
{
    file.read(space).unwrap_or(0)
}

// Fills up behind the first `have` bytes, as far as the file goes; how many there are then. A read gives as many bytes as it likes, so the turns are no count.
pub fn read_rest<R: Read>(file: &mut R, space: &mut [u8], mut have: usize) -> usize
    requires { have ≤ length space.old }
    ensures { result ≤ length space.old }
{
    while have < space.len() {
        let more = read_some(file, &mut space[have..]);
        if more == 0 {
            break;
        }
        have += more;
    }
    have
}

// Moves the bytes from `at` up to `have` to the front, and fills up behind them; how many there are then.
pub fn refill<R: Read>(file: &mut R, space: &mut [u8], at: usize, have: usize) -> usize
    requires at_le_have { at ≤ have }
    requires have_in_bounds { have ≤ length space.old }
    ensures { result ≤ length space.old }
{
    space.copy_within(at..have, 0);
    read_rest(file, space, have - at)
}
