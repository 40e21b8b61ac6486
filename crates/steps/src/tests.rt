// Examples and limits of step tables.
use crate::{Arc, Row, StepTable};
use model::{Cause, Cell, Layer, Reading, Refusal};

const PLAIN: Row = Row {
    label: 0,
    values: [0; 6],
    start: false,
};

const BEGIN: Row = Row {
    label: 63,
    values: [1000, -1000, 0, 0, 0, 7],
    start: true,
};

const LOOP: Arc = Arc { from: 0, to: 0 };

fn filled<'a>(rows: &'a [Row], arcs: &'a [Arc]) -> Result<(), Refusal> {
    StepTable::new().fill(rows, arcs)
}

fn refused(cause: Cause, place: usize) -> Result<(), Refusal> {
    Err(Refusal::new(Layer::Steps, cause, place))
}

#[test]
fn starts_follow_row_order(rt: HostRuntime) {
    let mut table = StepTable::new();
    assert_eq!(rt; table.start_count(), 0);
    assert_eq!(rt; table.fill(&[PLAIN, BEGIN, PLAIN, BEGIN], &[]), Ok(()));
    assert_eq!(rt; table.start_count(), 2);
    assert_eq!(rt; table.start_at(0), Some(1));
    assert_eq!(rt; table.start_at(1), Some(3));
    assert_eq!(rt; table.start_at(2), None);
}

#[test]
fn next_codes_follow_arc_order(rt: HostRuntime) {
    let arcs = [
        Arc { from: 1, to: 2 },
        LOOP,
        Arc { from: 1, to: 0 },
        Arc { from: 1, to: 2 },
    ];
    let mut table = StepTable::new();
    assert_eq!(rt; table.fill(&[PLAIN; 3], &arcs), Ok(()));
    assert_eq!(rt; table.next_count(1), 3);
    assert_eq!(rt; table.next_at(1, 0), Some(2));
    assert_eq!(rt; table.next_at(1, 1), Some(0));
    assert_eq!(rt; table.next_at(1, 2), Some(2));
    assert_eq!(rt; table.next_at(1, 3), None);
    assert_eq!(rt; table.next_count(2), 0);
    assert_eq!(rt; table.next_count(3), 0);
    assert_eq!(rt; table.next_at(u64::MAX, 0), None);
}

#[test]
fn rows_are_observed(rt: HostRuntime) {
    let mut table = StepTable::new();
    assert_eq!(rt; table.fill(&[PLAIN, BEGIN], &[]), Ok(()));
    let mut reading = Reading {
        label: 5,
        values: [5; 6],
    };
    assert!(rt; !table.observe(2, &mut reading));
    assert_eq!(rt; (reading.label, reading.values), (5, [5; 6]));
    assert!(rt; table.observe(1, &mut reading));
    assert_eq!(rt;
        (reading.label, reading.values),
        (63, [1000, -1000, 0, 0, 0, 7])
    );
}

#[test]
fn a_refusal_leaves_the_table(rt: HostRuntime) {
    let mut table = StepTable::new();
    assert_eq!(rt; table.fill(&[BEGIN], &[LOOP]), Ok(()));
    assert_eq!(rt;
        table.fill(&[PLAIN; 2], &[LOOP, Arc { from: 0, to: 2 }]),
        refused(Cause::Step, 3)
    );
    assert_eq!(rt; (table.start_count(), table.next_at(0, 0)), (1, Some(0)));
    assert_eq!(rt; table.fill(&[PLAIN], &[]), Ok(()));
    assert_eq!(rt; (table.start_count(), table.next_at(0, 0)), (0, None));
}

#[test]
fn labels_values_and_rows_have_limits(rt: HostRuntime) {
    let label = Row { label: 64, ..PLAIN };
    let high = Row {
        values: [0, 0, 0, 0, 0, 1001],
        ..PLAIN
    };
    let low = Row {
        values: [-1001, 0, 0, 0, 0, 0],
        ..PLAIN
    };
    assert_eq!(rt; filled(&[PLAIN, label, high], &[]), refused(Cause::Step, 1));
    assert_eq!(rt; filled(&[high], &[]), refused(Cause::Step, 0));
    assert_eq!(rt; filled(&[BEGIN, low], &[]), refused(Cause::Step, 1));
    assert_eq!(rt;
        filled(&[PLAIN], &[Arc { from: 1, to: 0 }]),
        refused(Cause::Step, 1)
    );
    assert_eq!(rt;
        filled(&[PLAIN], &[LOOP, Arc { from: 0, to: 1 }]),
        refused(Cause::Step, 2)
    );
    assert_eq!(rt; filled(&[], &[LOOP]), refused(Cause::Step, 0));
}

#[test]
fn a_row_has_64_arcs(rt: HostRuntime) {
    assert_eq!(rt; filled(&[PLAIN], &[LOOP; 64]), Ok(()));
    assert_eq!(rt; filled(&[PLAIN], &[LOOP; 65]), refused(Cause::Step, 65));
}

#[test]
fn rows_and_arcs_are_counted(rt: HostRuntime) {
    assert_eq!(rt; filled(&[PLAIN; 256], &[]), Ok(()));
    assert_eq!(rt;
        filled(&[PLAIN; 257], &[LOOP; 4097]),
        refused(Cause::Many, 256)
    );
    assert_eq!(rt; filled(&[PLAIN], &[LOOP; 4096]), refused(Cause::Step, 65));
    assert_eq!(rt;
        filled(&[Row { label: 64, ..PLAIN }], &[LOOP; 4097]),
        refused(Cause::Many, 4097)
    );
}

// Sixteen arcs from each row.
fn spread(arcs: &mut [Arc]) {
    for (number, arc) in arcs.iter_mut().enumerate() {
        arc.from = (number / 16 % 256) as u16;
    }
}

#[test]
fn the_largest_table_is_taken(rt: HostRuntime) {
    let mut arcs = [Arc { from: 0, to: 255 }; 4096];
    spread(&mut arcs);
    let mut table = StepTable::new();
    assert_eq!(rt; table.fill(&[BEGIN; 256], &arcs), Ok(()));
    assert_eq!(rt;
        (table.start_count(), table.start_at(255)),
        (256, Some(255))
    );
    assert_eq!(rt;
        (table.next_count(255), table.next_at(255, 15)),
        (16, Some(255))
    );
}
