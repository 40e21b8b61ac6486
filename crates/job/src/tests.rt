// Job files at every border and one past it, and report lines byte by byte.
use crate::parts::split;
use crate::report::{refused_line, state_line, verdict_line};
use model::{Answer, Cause, Layer, Reading, Refusal, Verdict};
use std::alloc::{AllocError, Global};
use std::test::Fail;

// A file of blanks with a trailer.
fn file(heap: Global, blanks: usize, distance: u32, length: u32) -> Result<Vec<u8>, AllocError> {
    let mut bytes = vec![in heap; b' '; blanks]?;
    bytes.extend_from_slice(&distance.to_le_bytes())?;
    bytes.extend_from_slice(&length.to_le_bytes())?;
    bytes.extend_from_slice(b"LSTJ")?;
    Ok(bytes)
}

// Layer 0 and the two lengths, or the numbers of the refusal.
fn told(bytes: &[u8]) -> (usize, usize, usize) {
    match split(bytes) {
        Ok(texts) => (0, texts.program.len(), texts.sheet.len()),
        Err(e) => (
            u8::from(e.layer) as usize,
            u8::from(e.cause) as usize,
            e.place,
        ),
    }
}

#[test]
fn sizes(rt: HostRuntime) -> Result<(), Fail> {
    assert_eq!(rt; told(&[0; 0]), (1, 1, 0));
    assert_eq!(rt; told(&[0; 11]), (1, 1, 11));
    assert_eq!(rt; told(&file(rt.alloc(), 0, 12, 12)?), (0, 0, 0));
    assert_eq!(rt; told(&file(rt.alloc(), 16_372, 12, 16_384)?), (2, 3, 4_096));
    assert_eq!(rt;
        told(&file(rt.alloc(), 16_373, 12, 16_385)?),
        (1, 1, 16_385)
    );
    Ok(())
}

#[test]
fn distances(rt: HostRuntime) -> Result<(), Fail> {
    assert_eq!(rt; told(&file(rt.alloc(), 9, 11, 21)?), (1, 2, 9));
    assert_eq!(rt; told(&file(rt.alloc(), 9, 12, 21)?), (0, 9, 0));
    assert_eq!(rt; told(&file(rt.alloc(), 9, 21, 21)?), (0, 0, 9));
    assert_eq!(rt; told(&file(rt.alloc(), 9, 22, 21)?), (1, 2, 9));
    assert_eq!(rt; told(&file(rt.alloc(), 9, 15, 20)?), (1, 2, 9));
    assert_eq!(rt; told(&file(rt.alloc(), 9, 15, 22)?), (1, 2, 9));
    Ok(())
}

#[test]
fn long_texts(rt: HostRuntime) -> Result<(), Fail> {
    assert_eq!(rt;
        told(&file(rt.alloc(), 8_192, 4_108, 8_204)?),
        (0, 4_096, 4_096)
    );
    assert_eq!(rt; told(&file(rt.alloc(), 4_197, 112, 4_209)?), (2, 3, 4_096));
    assert_eq!(rt;
        told(&file(rt.alloc(), 4_197, 4_109, 4_209)?),
        (3, 3, 4_196)
    );
    assert_eq!(rt;
        told(&file(rt.alloc(), 8_194, 4_109, 8_206)?),
        (2, 3, 4_096)
    );
    Ok(())
}

// The trailer of 30 blanks, the sheet 10 of them, with one byte changed.
fn damaged(heap: Global, place: usize) -> Result<(usize, usize, usize), AllocError> {
    let mut bytes = file(heap, 30, 22, 42)?;
    if let Some(byte) = bytes.get_mut(place) {
        *byte ^= 1;
    }
    Ok(told(&bytes))
}

#[test]
fn damaged_trailers(rt: HostRuntime) -> Result<(), Fail> {
    assert_eq!(rt; damaged(rt.alloc(), 42)?, (0, 20, 10));
    assert_eq!(rt; damaged(rt.alloc(), 30)?, (0, 19, 11));
    for place in 31..42 {
        assert_eq!(rt; damaged(rt.alloc(), place)?, (1, 2, 30));
    }
    Ok(())
}

#[test]
fn lines(rt: HostRuntime) {
    let mut out = [b'.'; 64];
    let refusal = Refusal::new(Layer::Sheet, Cause::Deep, 4_095);
    assert_eq!(rt; refused_line(&mut out, &refusal), Ok(18));
    assert!(rt; &out[0..19] == b"refused 3 12 4095\n.".as_slice());
    let answer = Answer {
        verdict: Verdict::Full,
        count: 0,
        stored: 1_000_000,
    };
    assert_eq!(rt; verdict_line(&mut out, &answer), Ok(15));
    assert!(rt; &out[0..19] == b"full 0 1000000\n95\n.".as_slice());
}

#[test]
fn states(rt: HostRuntime) {
    let mut out = [b'.'; 64];
    let state = Reading {
        label: 63,
        values: [0, -1, 1000, -1000, 7, -32768],
    };
    assert_eq!(rt; state_line(&mut out, &state), Ok(28));
    assert!(rt; &out[0..29] == b"63 0 -1 1000 -1000 7 -32768\n.".as_slice());
}

#[test]
fn short_buffers(rt: HostRuntime) {
    let mut out = [b'.'; 63];
    let answer = Answer {
        verdict: Verdict::Pass,
        count: 0,
        stored: 1,
    };
    assert_eq!(rt;
        verdict_line(&mut out, &answer),
        Err(Refusal::new(Layer::Check, Cause::Line, 63))
    );
    assert_eq!(rt; out[0], b'.');
}
