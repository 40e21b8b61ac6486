// A job file is a program text, a sheet text and a trailer of twelve bytes that points back at the sheet.
ghost use Rattle.std.specs.Prelude.{◌≡◌, ◌+◌, ◌*◌};
ghost use Rattle.job.specs.Jobs.{Splits, Trailed};

use model::{Cause, Layer, Refusal};

const LEAST: usize = 12;

// No job has more bytes.
pub const MOST: usize = 16_384;

// As lexing has it, told again here: job stands on no crate that knows of texts.
const LONGEST_TEXT: usize = 4_096;

// The two texts of a job, as parts of the file.
#[derive(Clone, Copy)]
pub struct Texts<'a> {
    pub program: &'a [u8],
    pub sheet: &'a [u8],
}

// The number in four bytes, the low byte first.
fn number(b0: u8, b1: u8, b2: u8, b3: u8) -> usize
    ensures { result ≡ b0 + 256 * (b1 + 256 * (b2 + 256 * b3)) }
{
    u32::from_le_bytes([b0, b1, b2, b3]) as usize
}

// The bytes before the trailer and the sheet's distance, if the file ends in a trailer of its own.
fn trailer(file: &[u8]) -> Option<(&[u8], usize)>
    ensures { Trailed file.now result }
{
    match file {
        [
            texts @ ..,
            d0,
            d1,
            d2,
            d3,
            n0,
            n1,
            n2,
            n3,
            b'L',
            b'S',
            b'T',
            b'J',
        ] => {
            let distance = number(*d0, *d1, *d2, *d3);
            let told = number(*n0, *n1, *n2, *n3);
            let good = told == file.len() && (LEAST..=told).contains(&distance);
            good.then_some((texts, distance))
        }
        _ => None,
    }
}

// Takes the trailer apart, and hands out the two texts before it.
pub fn split(file: &[u8]) -> Result<Texts<'_>, Refusal>
    ensures { Splits file.now result }
{
    let length = file.len();
    if length < LEAST || length > MOST {
        return Err(Refusal::new(Layer::Job, Cause::Size, length));
    }
    let mistrailed = Refusal::new(Layer::Job, Cause::Trailer, length - LEAST);
    let (texts, distance) = trailer(file).ok_or(mistrailed)?;
    let start = length - distance;
    if start > LONGEST_TEXT {
        return Err(Refusal::new(Layer::Program, Cause::Length, LONGEST_TEXT));
    }
    if distance - LEAST > LONGEST_TEXT {
        let place = start + LONGEST_TEXT;
        return Err(Refusal::new(Layer::Sheet, Cause::Length, place));
    }
    let (program, sheet) = texts.split_at(start);
    Ok(Texts { program, sheet })
}
