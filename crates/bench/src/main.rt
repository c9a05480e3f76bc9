// The bench program: standard input into a buffer, the text that answers it onto standard output.
#![tactic(auto)]

ghost use Rattle.std.specs.Prelude.{◌≤◌, length, IfOk};

use lines::answer;
use std::io;
use std::io::{Read, Write};

// One byte more than the longest input that is answered is enough to see that there is more.
const MOST: usize = 8201;

// Reads until the buffer is full or the input ends, each time for as much as there is room for, and gives how many bytes stand at
// its start.
fn read_full<R: Read>(reader: &mut R, buf: &mut [u8]) -> io::Result<usize>
    ensures { IfOk result (λ n. n ≤ length buf.new) }
{
    let mut done = 0;
    while done < buf.len() {
        let n = reader.read(&mut buf[done..])?;
        if n == 0 {
            break;
        }
        done += n;
    }
    Ok(done)
}

fn main(rt: HostRuntime) -> io::Result<()> {
    let mut input = [0u8; MOST];
    let mut out = [0u8; 8192];
    let length = read_full(&mut rt.stdin(), &mut input)?;
    let end = answer(&input[..length], &mut out);
    rt.stdout().write_all(&out[..end])
}
