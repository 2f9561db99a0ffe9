#![tactic(auto)]
// Replays stored calls over one record and prints what comes out of each. The head of tests/second/src/bin/make_cases.rs says what a call is
// and how it is printed.
ghost use Rattle.std.specs.Prelude.{◌≤◌, IfOk, length};

use calls::Calls;
use std::io::{self, Read};

mod calls;
mod lines;
mod play;

// One call after another, up to the first that is none of ours or cut short.
fn replay(rt: &impl Print, lent: &mut [u8; record::LENGTH], input: &[u8]) -> io::Result<()> {
    for (number, call) in Calls(input) {
        print!(rt; "{number:x} ")?;
        play::one(rt, lent, call)?;
        println!(rt)?;
    }
    Ok(())
}

// Reads until the buffer is full or the input ends, and answers how many octets are in it.
fn read_full<R: Read>(from: &mut R, buffer: &mut [u8]) -> io::Result<usize>
    ensures { IfOk result (λ n. n ≤ length buffer.new) }
{
    let length = buffer.len();
    let mut rest = buffer;
    while !rest.is_empty() {
        let n = from.read(rest)?;
        if n == 0 {
            break;
        }
        rest = &mut rest[n..];
    }
    Ok(length - rest.len())
}

// Memory is fixed: what lies beyond the input's buffer is not read.
fn main(rt: HostRuntime) -> io::Result<()> {
    let mut input = [0u8; 32768];
    let mut lent = [0u8; record::LENGTH];
    let n = read_full(&mut rt.reader(), &mut input)?;
    replay(&rt, &mut lent, &input[..n])
}
