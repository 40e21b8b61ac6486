// Sheets on examples, and each limit at the limit and one past it. What is expected comes from listing the words of the sheets.
use crate::{Room, Sheet, read};
use model::{Cause, Moment, Watch};
use std::alloc::Global;
use std::process::Abort;
use std::test::Fail;

// A text that begins with the same bytes so many times.
fn repeated(heap: Global, bytes: &[u8], times: usize, tail: &[u8]) -> Result<Vec<u8>, Fail> {
    let mut text = Vec::new(heap);
    for _ in 0..times {
        text.extend_from_slice(bytes)?;
    }
    text.extend_from_slice(tail)?;
    Ok(text)
}

// How many of the moments with these labels the sheet lets pass.
fn follow(sheet: &Sheet, labels: &[u8]) -> usize {
    let mut state = sheet.first();
    for (passed, label) in labels.iter().enumerate() {
        let moment = Moment {
            label: *label,
            values: [1, 0, 0, 0, 0, 0],
            starts: [0, 0, 0, 0, 0, 0],
        };
        match sheet.step(&state, &moment) {
            Some(next) => state = next,
            None => return passed,
        }
    }
    labels.len()
}

// The sheet of the text lets pass so many of the moments with these labels.
fn passes(
    rt: &impl Abort,
    heap: Global,
    text: &[u8],
    labels: &[u8],
    many: usize,
) -> Result<(), Fail> {
    let room = Room::reserve(heap)?;
    let sheet = read(room, text).map_err(|_| Fail::new("refused"))?;
    assert!(rt; follow(&sheet, labels) == many);
    Ok(())
}

// The text is refused for this cause at this place.
fn refused(
    rt: &impl Abort,
    heap: Global,
    text: &[u8],
    cause: Cause,
    place: usize,
) -> Result<(), Fail> {
    let room = Room::reserve(heap)?;
    let Err(refusal) = read(room, text) else {
        return Err(Fail::new("read"));
    };
    assert!(rt; refusal.cause == cause);
    assert!(rt; refusal.place == place);
    Ok(())
}

// So many assertions and a tail are read, or refused for the last of them.
fn assertions(
    rt: &impl Abort,
    heap: Global,
    many: usize,
    tail: &[u8],
    good: bool,
) -> Result<(), Fail> {
    let text = repeated(heap, b"?:[true]", many, tail)?;
    if good {
        return passes(rt, heap, text.as_slice(), &[0, 1], 2);
    }
    refused(rt, heap, text.as_slice(), Cause::Many, 480)
}

// `empty` and so many `*` are read, or refused for the last of them.
fn signs(rt: &impl Abort, heap: Global, many: usize, good: bool) -> Result<(), Fail> {
    let mut text = repeated(heap, b"empty", 1, b"")?;
    for _ in 0..many {
        text.extend_from_slice(b"*")?;
    }
    if good {
        return passes(rt, heap, text.as_slice(), &[0], 0);
    }
    refused(rt, heap, text.as_slice(), Cause::Many, 260)
}

#[test]
fn rows_and_alternatives(rt: HostRuntime) -> Result<(), Fail> {
    passes(&rt, rt.alloc(), b"0:[true] 1,2:[true]", &[0, 2, 0], 2)?;
    passes(&rt, rt.alloc(), b"0:[true] | 1:[true] 2:[true]", &[1, 2], 2)?;
    passes(
        &rt,
        rt.alloc(),
        b"?:[true] | ?:[true] ?:[true]",
        &[5, 6, 7],
        2,
    )?;
    passes(&rt, rt.alloc(), b"empty | 0:[true]", &[1], 0)
}

#[test]
fn repetitions(rt: HostRuntime) -> Result<(), Fail> {
    passes(
        &rt,
        rt.alloc(),
        b"(0:[true]+ 1:[true]*)*",
        &[0, 0, 1, 1, 0, 2],
        5,
    )?;
    passes(
        &rt,
        rt.alloc(),
        b"(empty* (0:[true]* | 1:[true])+)+",
        &[1, 0, 1],
        3,
    )?;
    passes(&rt, rt.alloc(), b"0:[true]* 1:[true]", &[1, 0], 1)?;
    passes(&rt, rt.alloc(), b"0:[true] empty rest", &[0, 9, 63], 3)
}

#[test]
fn start_values(rt: HostRuntime) -> Result<(), Fail> {
    passes(&rt, rt.alloc(), b"?:[a == A + 1 and B <= b]*", &[0, 1], 2)?;
    passes(&rt, rt.alloc(), b"?:[a == A]*", &[0], 0)
}

#[test]
fn limits(rt: HostRuntime) -> Result<(), Fail> {
    assertions(&rt, rt.alloc(), 60, b"", true)?;
    assertions(&rt, rt.alloc(), 61, b"", false)?;
    assertions(&rt, rt.alloc(), 59, b"rest", true)?;
    assertions(&rt, rt.alloc(), 60, b"rest", false)?;
    signs(&rt, rt.alloc(), 255, true)?;
    signs(&rt, rt.alloc(), 256, false)
}

#[test]
fn refusals(rt: HostRuntime) -> Result<(), Fail> {
    refused(&rt, rt.alloc(), b"", Cause::Unexpected, 0)?;
    refused(&rt, rt.alloc(), b"()", Cause::Unexpected, 1)?;
    refused(&rt, rt.alloc(), b"0:[true] rest 1", Cause::Unexpected, 14)?;
    refused(&rt, rt.alloc(), b"64:[true]", Cause::Number, 0)?;
    refused(&rt, rt.alloc(), b"0:[true] $", Cause::Byte, 9)
}

#[test]
fn depth(rt: HostRuntime) -> Result<(), Fail> {
    passes(
        &rt,
        rt.alloc(),
        b"((((((((((((((((empty))))))))))))))))",
        &[0],
        0,
    )?;
    refused(&rt, rt.alloc(), b"(((((((((((((((((empty", Cause::Deep, 16)?;
    refused(&rt, rt.alloc(), b"((((((((((((((((0:[true", Cause::Deep, 18)
}
