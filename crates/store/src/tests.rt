// Examples and limits of the store, on keys that are codes.
use crate::{Added, NoPlace, Record, add, find, keep};
use std::process::Abort;

#[test]
fn stores_in_order(rt: HostRuntime) {
    let mut table = [Record::new(0u64); 3];
    assert_eq!(rt; add(&mut table, 0, 70, 5), Ok(Added::New));
    assert_eq!(rt; add(&mut table, 1, 30, 6), Ok(Added::New));
    assert_eq!(rt; add(&mut table, 2, 70, 7), Ok(Added::Known(0)));
    assert_eq!(rt; find(&table, 2, &30), Some(1));
    assert_eq!(rt; find(&table, 2, &0), None);
    assert_eq!(rt; (table[0].key, table[0].from), (70, 5));
    assert_eq!(rt; (table[1].key, table[1].from), (30, 6));
}

#[test]
fn fills_to_the_last_place(rt: HostRuntime) {
    let mut table = [Record::new(9u64); 2];
    assert_eq!(rt; add(&mut table, 0, 1, 0), Ok(Added::New));
    assert_eq!(rt; add(&mut table, 1, 2, 0), Ok(Added::New));
    assert_eq!(rt; add(&mut table, 2, 2, 0), Ok(Added::Known(1)));
    assert_eq!(rt; add(&mut table, 2, 3, 0), Err(NoPlace));
    assert_eq!(rt; add(&mut [], 0, 3, 0), Err(NoPlace));
}

#[test]
fn keeps_what_is_new(rt: HostRuntime) {
    let mut table = [Record::new(9u64); 2];
    assert_eq!(rt; keep(&mut table, 0, 1, 4), Ok(1));
    assert_eq!(rt; keep(&mut table, 1, 1, 5), Ok(1));
    assert_eq!(rt; keep(&mut table, 1, 2, 6), Ok(2));
    assert_eq!(rt; keep(&mut table, 2, 3, 7), Err(NoPlace));
    assert_eq!(rt; (table[0].from, table[1].from), (4, 6));
}

// What a place held before is not looked at.
#[test]
fn starts_empty(rt: HostRuntime) {
    let mut table = [Record::new(4u64); 2];
    assert_eq!(rt; find(&table, 0, &4), None);
    assert_eq!(rt; add(&mut table, 0, 4, 0), Ok(Added::New));
}

// Nine keys, so that the chains are linked again at one, two, four and eight.
fn fill(rt: &impl Abort, table: &mut [Record<u64>]) {
    for place in 0..9 {
        assert_eq!(rt; add(table, place, place as u64 * 64, 0), Ok(Added::New));
    }
}

#[test]
fn finds_after_growth(rt: HostRuntime) {
    let mut table = [Record::new(0u64); 9];
    fill(&rt, &mut table);
    assert_eq!(rt; find(&table, 9, &0), Some(0));
    assert_eq!(rt; find(&table, 9, &448), Some(7));
    assert_eq!(rt; find(&table, 9, &512), Some(8));
    assert_eq!(rt; find(&table, 9, &1), None);
}

// Links that lead nowhere, as after a foreign write, end a look-up.
#[test]
fn ends_on_foreign_links(rt: HostRuntime) {
    let mut table = [Record::new(7u64); 2];
    table[0].head = 2;
    table[1].next = 2;
    assert_eq!(rt; find(&table, 2, &1), None);
    table[0].head = 9;
    assert_eq!(rt; find(&table, 2, &1), None);
}
