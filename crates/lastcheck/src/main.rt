// Reads a job from standard input and prints its report on standard output.
#![tactic(auto)]

ghost use Rattle.std.specs.Io.KnownBytes.{Consumes, IsAtEnd};
ghost use Rattle.std.specs.Prelude.{◌≡◌, ◌+◌, ◌<◌, ◌≤◌, length, take, drop, IfOk};

use std::io;
use std::io::{Read, Write};

// One byte more than a job may have, so that a longer one is seen to be too long.
const MOST: usize = job::MOST + 1;

// One read into the buffer from a place on.
fn read_at<R: Read>(input: &mut R, buffer: &mut [u8], at: usize) -> io::Result<usize>
    requires { at < length buffer.old }
    ensures front { take at buffer.new ≡ take at buffer.old }
    ensures long { length buffer.new ≡ length buffer.old }
    ensures fits { IfOk result (λ n. at + n ≤ length buffer.new) }
    ensures bytes { IfOk result (λ n. Consumes (R.remaining input.old) (R.remaining input.new) (take n (drop at buffer.new))) }
    ensures end { IfOk result (λ n. n ≡ 0 → IsAtEnd (R.remaining input.new)) }
{
    input.read(&mut buffer[at..])
}

// Reads until the buffer is full or the input ends; answers how many bytes came. They are the input's next ones, and all of
// them where they are fewer than the buffer holds.
// Not by the library's `read_to_end`: that reads 8 KB at first, and where the input is a socket of messages the rest of a longer
// message is lost. Nor is a read tried again that a signal interrupts.
fn fill<R: Read>(input: &mut R, buffer: &mut [u8]) -> io::Result<usize>
    ensures within { IfOk result (λ n. n ≤ length buffer.new) }
    ensures bytes { IfOk result (λ n. Consumes (R.remaining input.old) (R.remaining input.new) (take n buffer.new)) }
    ensures end { IfOk result (λ n. n < length buffer.new → IsAtEnd (R.remaining input.new)) }
{
    let mut filled = 0;
    // By its index: the contract speaks of the front of the buffer, which a slice that grows shorter leaves behind.
    while filled < buffer.len() {
        let count = read_at(input, buffer, filled)?;
        if count == 0 {
            return Ok(filled);
        }
        filled += count;
    }
    Ok(filled)
}

fn run(rt: &HostRuntime) -> anyhow::Result<()> {
    let mut bytes = vec![in rt.alloc(); 0u8; MOST]?;
    let length = fill(&mut rt.stdin(), &mut bytes)?;
    match job::split(&bytes[..length]) {
        Ok(texts) => {
            let program = texts.program.len();
            let sheet = texts.sheet.len();
            println!(rt; "program {program} bytes, sheet {sheet} bytes")?;
        }
        Err(refusal) => {
            let mut line = [0u8; job::LINE];
            // No `?`: a refusal is no error that it could hand on, and there is none for a buffer of this length.
            if let Ok(end) = job::refused_line(&mut line, &refusal) {
                rt.stdout().write_all(&line[0..end])?;
            }
        }
    }
    Ok(())
}

fn main(rt: HostRuntime) -> anyhow::Result<()> {
    run(&rt)
}
