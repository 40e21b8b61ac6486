// Conditions as texts: what is good, each fault at its place, every limit and one past it, and what holds.
use crate::read::read_condition;
use lexing::Words;
use model::Moment;
use std::alloc::{AllocError, Global};
use std::test::Fail;
use text::Expressions;
use values::holds;

// The number of the cause and the place, or 0 and 0 for a good text.
fn told(heap: Global, text: &[u8]) -> Result<(u8, usize), AllocError> {
    let words = Words::reserve(heap)?;
    let room = Expressions::reserve(heap)?;
    match read_condition(text, words, room) {
        Ok(_) => Ok((0, 0)),
        Err(fault) => Ok((u8::from(fault.cause), fault.place)),
    }
}

// Whether a good text holds where the registers are 1 to 6 now and were 11 to 16 at the start.
fn stands(heap: Global, text: &[u8]) -> Result<bool, AllocError> {
    let words = Words::reserve(heap)?;
    let room = Expressions::reserve(heap)?;
    let moment = Moment {
        label: 0,
        values: [1, 2, 3, 4, 5, 6],
        starts: [11, 12, 13, 14, 15, 16],
    };
    let read = read_condition(text, words, room);
    Ok(read.is_ok_and(|good| holds(&good.expressions, good.index, &moment)))
}

// A part, so often, and what comes behind.
fn repeated(heap: Global, part: &[u8], times: usize, behind: &[u8]) -> Result<Vec<u8>, AllocError> {
    let mut text = Vec::new(heap);
    for _ in 0..times {
        text.extend_from_slice(part)?;
    }
    text.extend_from_slice(behind)?;
    Ok(text)
}

// Texts with the cause and the place that they deserve, 0 and 0 for good ones.
const TEXTS: [(&[u8], u8, usize); 21] = [
    (b"a < 3", 0, 0),
    (b"a<=3and[true]", 0, 0),
    (b" (a+1)-F==0\n", 0, 0),
    (b"a < $", 4, 4),
    (b"a < )", 5, 4),
    (b"a < ", 5, 4),
    (b"a < g", 5, 4),
    (b"a === 1", 5, 4),
    (b"a < 1001 $", 6, 4),
    (b"1001 1", 6, 0),
    (b"((1 < 2))", 5, 4),
    (b"true true", 5, 5),
    (b"", 5, 0),
    (b"7 < 1000", 0, 0),
    (b"7 < 1001", 6, 4),
    (b"7 < 01000", 0, 0),
    (b"7 < 10000", 6, 4),
    (b"7 < 18446744073709551617", 6, 4),
    (b"[[[[[[[[[[[[[[[[true]]]]]]]]]]]]]]]]", 0, 0),
    (b"[[[[[[[[[[[[[[[[[true]]]]]]]]]]]]]]]]]", 12, 16),
    (b"1 < 2 and (((((((((((((((((1))))))))))))))))) < 2", 12, 26),
];

// Long texts: a part, how often, what comes behind, the cause and the place.
const LONG: [(&[u8], usize, &[u8], u8, usize); 6] = [
    (b"0", 3999, b"1 < 2", 0, 0),
    (b"9", 4000, b" < 2", 6, 0),
    (b"true and ", 127, b"true", 0, 0),
    (b"true and ", 128, b"true", 11, 1152),
    (b" ", 4092, b"true", 0, 0),
    (b" ", 4093, b"true", 3, 4096),
];

// Texts, and whether they hold.
const HOLDS: [(&str, bool); 8] = [
    ("7 - 2 - 1 == 4", true),
    ("7 - (2 - 1) == 6", true),
    ("true or true nand true", false),
    ("true or [true nand true]", true),
    ("a + b == c and A == 11 and F - f == 10", true),
    ("c <= 3 and [[c < 3] nand true]", true),
    ("0 - 1000 - 1000 < 0 - 1000 - 999", true),
    ("c < 3", false),
];

#[test]
fn texts_and_faults(rt: HostRuntime) -> Result<(), Fail> {
    for (text, cause, place) in TEXTS {
        assert_eq!(rt; told(rt.alloc(), text)?, (cause, place));
    }
    Ok(())
}

#[test]
fn long_texts(rt: HostRuntime) -> Result<(), Fail> {
    for (part, times, behind, cause, place) in LONG {
        let text = repeated(rt.alloc(), part, times, behind)?;
        assert_eq!(rt; told(rt.alloc(), text.as_slice())?, (cause, place));
    }
    Ok(())
}

#[test]
fn what_holds(rt: HostRuntime) -> Result<(), Fail> {
    for (text, answer) in HOLDS {
        assert_eq!(rt; stands(rt.alloc(), text.as_bytes())?, answer, "{}", text);
    }
    Ok(())
}
