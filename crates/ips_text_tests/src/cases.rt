use crate::stops::must;
use ips_cases::{Cases, Row};

const fn row(a: u32, b: u32, c: u32, d: u32, value: u8) -> Row {
    Row {
        sets: [a, b, c, d],
        value,
    }
}

#[test]
fn each_key_has_the_value_of_its_row(rt: HostRuntime) {
    let rows = [
        row(1, 3, 1, 1, 10),
        row(2, 1, 1, 1, 20),
        row(2, 2, 1, 1, 30),
    ];
    let table = Cases::new(rows, [2, 2, 1, 1]).expect(&rt, "each key has a row");
    let values = [
        table.find([0, 0, 0, 0]),
        table.find([0, 1, 0, 0]),
        table.find([1, 0, 0, 0]),
        table.find([1, 1, 0, 0]),
    ];
    must(&rt, values == [10, 10, 20, 30], "the value of each row");
}

#[test]
fn gaps_and_overlaps_are_refused(rt: HostRuntime) {
    let last_key_has_no_row = [row(1, 3, 1, 1, 10), row(2, 1, 1, 1, 20)];
    let last_key_has_two = [
        row(1, 3, 1, 1, 10),
        row(2, 3, 1, 1, 20),
        row(2, 2, 1, 1, 30),
    ];
    let are_refused = [
        Cases::new(last_key_has_no_row, [2, 2, 1, 1]).is_none(),
        Cases::new(last_key_has_two, [2, 2, 1, 1]).is_none(),
        Cases::new([], [1, 1, 1, 1]).is_none(),
    ];
    must(&rt, are_refused == [true, true, true], "each is refused");
}

#[test]
fn sizes_of_32(rt: HostRuntime) {
    const ALL: u32 = u32::MAX;
    const TOP: u32 = 0x8000_0000;
    let rows = [row(ALL, ALL, ALL, ALL - TOP, 1), row(ALL, ALL, ALL, TOP, 2)];
    let table = Cases::new(rows, [32, 32, 32, 32]).expect(&rt, "each key has a row");
    let values = [table.find([31, 31, 31, 30]), table.find([31, 31, 31, 31])];
    must(&rt, values == [1, 2], "the value of each row");
    let last_key_has_two = [rows[0], rows[1], row(TOP, TOP, TOP, TOP, 3)];
    let is_refused = Cases::new(last_key_has_two, [32, 32, 32, 32]).is_none();
    must(&rt, is_refused, "the last key has two");
}
