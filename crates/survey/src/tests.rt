// Examples and limits of the survey, on step tables.
use crate::{Reached, survey};
use model::{Cause, Layer, Refusal};
use std::test::Fail;
use steps::{Arc, Row, StepTable};
use store::Record;

const ROWS: [Row; 4] = [
    Row {
        label: 3,
        values: [0; 6],
        start: true,
    },
    Row {
        label: 63,
        values: [0; 6],
        start: false,
    },
    Row {
        label: 0,
        values: [0; 6],
        start: true,
    },
    Row {
        label: 9,
        values: [0; 6],
        start: false,
    },
];

// Nothing leads to row 3.
const ARCS: [Arc; 5] = [
    Arc { from: 0, to: 2 },
    Arc { from: 0, to: 1 },
    Arc { from: 1, to: 0 },
    Arc { from: 2, to: 2 },
    Arc { from: 3, to: 0 },
];

fn surveyed(table: &mut [Record<u64>]) -> Result<Option<Reached>, Refusal> {
    let mut cell = StepTable::new();
    cell.fill(&ROWS, &ARCS)?;
    survey(&cell, table)
}

fn whole() -> Result<Option<Reached>, Refusal> {
    let mut labels = [false; 64];
    labels[0] = true;
    labels[3] = true;
    labels[63] = true;
    Ok(Some(Reached { codes: 3, labels }))
}

#[test]
fn finds_what_runs_come_to(rt: HostRuntime) {
    let mut table = [Record::new(77u64); 4];
    assert_eq!(rt; surveyed(&mut table), whole());
    assert_eq!(rt; (table[0].key, table[0].from), (0, 0));
    assert_eq!(rt; (table[1].key, table[1].from), (2, 1));
    assert_eq!(rt; (table[2].key, table[2].from), (1, 0));
    assert_eq!(rt; (table[3].key, table[3].from), (77, 0));
}

#[test]
fn is_full_with_a_place_too_few(rt: HostRuntime) {
    assert_eq!(rt; surveyed(&mut [Record::new(0u64); 3]), whole());
    let mut table = [Record::new(77u64); 2];
    assert_eq!(rt; surveyed(&mut table), Ok(None));
    assert_eq!(rt; (table[0].key, table[1].key), (0, 2));
    assert_eq!(rt; surveyed(&mut []), Ok(None));
}

#[test]
fn without_starts_nothing_is_found(rt: HostRuntime) {
    let labels = [false; 64];
    assert_eq!(rt;
        survey(&StepTable::new(), &mut []),
        Ok(Some(Reached { codes: 0, labels }))
    );
}

#[test]
fn tables_have_at_most_a_million_places(rt: HostRuntime) -> Result<(), Fail> {
    let mut table = vec![in rt.alloc(); Record::new(77u64); 1_000_001]?;
    let large = Refusal::new(Layer::Check, Cause::Large, 1_000_001);
    assert_eq!(rt; surveyed(&mut table), Err(large));
    let _ = table.pop();
    assert_eq!(rt; surveyed(&mut table), whole());
    Ok(())
}
