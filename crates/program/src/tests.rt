// Programs as texts: what is good, each fault at its place, every limit and one past it, and the states of a cell.
use crate::reading::read;
use crate::room::Room;
use model::{Cell, Layer, Reading, read as state};
use std::alloc::{AllocError, Global};
use std::test::Fail;

// The number of the cause and the place, or 0 and 0 for a good text; 99 for a refusal by another layer.
fn told(heap: Global, text: &[u8]) -> Result<(u8, usize), AllocError> {
    match read(Room::reserve(heap)?, text) {
        Ok(_) => Ok((0, 0)),
        Err(refusal) => {
            if refusal.layer == Layer::Program {
                Ok((u8::from(refusal.cause), refusal.place))
            } else {
                Ok((99, 0))
            }
        }
    }
}

// A part in front, a part so often, and what comes behind.
fn repeated(
    heap: Global,
    front: &[u8],
    part: &[u8],
    times: usize,
    behind: &[u8],
) -> Result<Vec<u8>, AllocError> {
    let mut text = Vec::new(heap);
    text.extend_from_slice(front)?;
    for _ in 0..times {
        text.extend_from_slice(part)?;
    }
    text.extend_from_slice(behind)?;
    Ok(text)
}

// Texts with the cause and the place that they deserve, 0 and 0 for good ones.
const TEXTS: [(&[u8], u8, usize); 26] = [
    (b"", 0, 0),
    (b" \n", 0, 0),
    (b"reg a 0 3 0 3; while (a < 3) a = a + 1;", 0, 0),
    (
        b"reg a -5 5 0 0; sense a; if (a < 0) ; else { break; }",
        10,
        45,
    ),
    (b"reg a -5 5 0 0; while (true) { sense A; }", 9, 37),
    (b"reg a -5 5 0 0; a = b;", 9, 20),
    (b"a = 1;", 9, 0),
    (b"a == 1;", 9, 0),
    (b"; else", 5, 2),
    (b"if (true) ;", 0, 0),
    (b"if (true) ; else", 5, 16),
    (b"if true ;", 5, 3),
    (b"{ ; ", 5, 4),
    (b"; }", 5, 2),
    (b"$", 4, 0),
    (b"reg", 5, 3),
    (b"reg g 0 0 0 0;", 5, 4),
    (b"reg A 0 0 0 0;", 5, 4),
    (b"reg b 0 1 0 1; reg a 0 1 0 1;", 5, 19),
    (b"reg f 0 1 0 1; reg", 5, 15),
    (b"reg a -1000 -1000 -1000 -1000;", 0, 0),
    (b"reg a -1001 0 0 0;", 6, 7),
    (b"reg a - - 0 0 0 0;", 5, 8),
    (b"reg a 0 63 0 63;", 0, 0),
    (b"reg a 0 64 0 0;", 7, 14),
    (b"reg a 0 1 1 0;", 7, 13),
];

// Long texts: what stands in front, a part, how often, what comes behind, the cause and the place.
const LONG: [(&[u8], &[u8], usize, &[u8], u8, usize); 12] = [
    (b"", b";", 63, b"", 0, 0),
    (b"", b";", 64, b"", 11, 63),
    (b"", b"{", 16, b"}}}}}}}}}}}}}}}}", 0, 0),
    (b"", b"{", 17, b"}}}}}}}}}}}}}}}}}", 12, 16),
    (b"", b"if (true) ", 15, b";", 0, 0),
    (b"", b"if (true) ", 16, b";", 12, 153),
    (b"", b" ", 4096, b"", 0, 0),
    (b"", b" ", 4097, b"", 3, 4096),
    (
        b"reg a 0 63 0 63; reg b 0 63 0 63; reg c 0 63 0 15;",
        b";",
        1,
        b"",
        0,
        0,
    ),
    (
        b"reg a 0 63 0 63; reg b 0 63 0 63; reg c 0 63 0 16;",
        b";",
        1,
        b"",
        8,
        49,
    ),
    (b"reg a 0 1 0 1; a = a", b" + a", 127, b";", 0, 0),
    (b"reg a 0 1 0 1; a = a", b" + a", 128, b";", 11, 531),
];

// The label and the first register's value of a state, none for a code that is no state.
fn brief(read: Option<Reading>) -> Option<(u8, i16)> {
    read.map(|reading| (reading.label, reading.values[0]))
}

#[test]
fn texts_and_faults(rt: HostRuntime) -> Result<(), Fail> {
    for (text, cause, place) in TEXTS {
        assert_eq!(rt; told(rt.alloc(), text)?, (cause, place));
    }
    Ok(())
}

#[test]
fn long_texts(rt: HostRuntime) -> Result<(), Fail> {
    for (front, part, times, behind, cause, place) in LONG {
        let text = repeated(rt.alloc(), front, part, times, behind)?;
        assert_eq!(rt; told(rt.alloc(), text.as_slice())?, (cause, place));
    }
    Ok(())
}

// From the loop's label with a at 2: into the body, back to the loop with a at 3, and out behind the last label.
#[test]
fn a_loop_goes_on(rt: HostRuntime) -> Result<(), Fail> {
    let room = Room::reserve(rt.alloc())?;
    let program = read(room, b"reg a 0 3 0 2; while (a < 3) a = a + 1;")?;
    assert_eq!(rt; program.start_count(), 3);
    let mut code = program.start_at(2);
    for expected in [(0, 2), (1, 2), (0, 3), (2, 3)] {
        let here = code.ok_or("the run ends too early")?;
        assert_eq!(rt; brief(state(&program, here)), Some(expected));
        code = program.next_at(here, 0);
    }
    assert!(rt; code.is_none());
    Ok(())
}
