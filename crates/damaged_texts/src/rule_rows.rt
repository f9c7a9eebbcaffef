// Clause texts that are damaged in or behind their rules, or brought with a wrong n or too short a store, and sound ones beside them.
use crate::outcome::Outcome::{Accepted, Refused};
use crate::rows::Row;
use faults::Layer::{Sheet, Store, Text};

// What stands in place of a literal.
pub const LITERAL_ROWS: [Row; 28] = [
    Row(b"p cnf 2 1\n1 -2 0\n", 1, 4, Accepted(2, 1)),
    Row(b"p cnf 2 1\n1 1 -1 2 -2 2 0\n", 1, 4, Accepted(2, 1)),
    Row(b"p cnf 64 1\n-64 64 0\n", 1, 4, Accepted(64, 1)),
    Row(b"p cnf 2 1\n  1    -2   0  \n", 1, 4, Accepted(2, 1)),
    Row(b"p cnf 2 1\n3 0\n", 1, 4, Refused(2, 10, Text)),
    Row(b"p cnf 2 1\n-3 0\n", 1, 4, Refused(2, 10, Text)),
    Row(b"p cnf 2 1\n1 -3 0\n", 1, 4, Refused(2, 12, Text)),
    Row(b"p cnf 2 1\n257 0\n", 1, 4, Refused(2, 10, Text)),
    Row(b"p cnf 2 1\n-255 0\n", 1, 4, Refused(2, 10, Text)),
    Row(
        b"p cnf 2 1\n18446744073709551617 0\n",
        1,
        4,
        Refused(2, 10, Text),
    ),
    Row(
        b"p cnf 2 1\n-18446744073709551617 0\n",
        1,
        4,
        Refused(2, 10, Text),
    ),
    Row(b"p cnf 2 1\n3 x 0\n", 1, 4, Refused(2, 10, Text)),
    Row(b"p cnf 2 1\n1 x 3 0\n", 1, 4, Refused(1, 12, Text)),
    Row(b"p cnf 2 2\n1 0\n3 0\n", 1, 4, Refused(2, 14, Text)),
    Row(b"p cnf 2 1\n+1 0\n", 1, 4, Refused(1, 10, Text)),
    Row(b"p cnf 2 1\n01 0\n", 1, 4, Refused(1, 10, Text)),
    Row(b"p cnf 2 1\n-01 0\n", 1, 4, Refused(1, 10, Text)),
    Row(b"p cnf 2 1\n- 1 0\n", 1, 4, Refused(1, 10, Text)),
    Row(b"p cnf 2 1\n--1 0\n", 1, 4, Refused(1, 10, Text)),
    Row(b"p cnf 2 1\n1-2 0\n", 1, 4, Refused(1, 10, Text)),
    Row(b"p cnf 2 1\n%\n0\n", 1, 4, Refused(1, 10, Text)),
    Row(b"p cnf 2 1\n1\t0\n", 1, 4, Refused(1, 10, Text)),
    Row(b"p cnf 2 1\n1 \0 0\n", 1, 4, Refused(1, 12, Text)),
    Row(b"p cnf 2 1\n\xc8 0\n", 1, 4, Refused(1, 10, Text)),
    Row(b"p cnf 2 1\n1\n0\n", 1, 4, Refused(1, 11, Text)),
    Row(b"p cnf 2 1\n1", 1, 4, Refused(1, 11, Text)),
    Row(b"p cnf 2 1\n1 ", 1, 4, Refused(1, 12, Text)),
    Row(b"p cnf 2 1\n1  \n", 1, 4, Refused(1, 13, Text)),
];

// What stands in place of the closing 0, of the line feed and of the end.
pub const CLOSING_ROWS: [Row; 21] = [
    Row(b"p cnf 2 1\n0\n", 1, 4, Accepted(2, 1)),
    Row(b"p cnf 2 3\n0\n1 0\n0\n", 1, 4, Accepted(2, 3)),
    Row(b"p cnf 2 1\n-0\n", 1, 4, Refused(1, 10, Text)),
    Row(b"p cnf 2 1\n1 -0\n", 1, 4, Refused(1, 12, Text)),
    Row(b"p cnf 2 1\n1 00\n", 1, 4, Refused(1, 12, Text)),
    Row(b"p cnf 2 1\n1 +0\n", 1, 4, Refused(1, 12, Text)),
    Row(b"p cnf 2 1\n1 0\r\n", 1, 4, Refused(1, 12, Text)),
    Row(b"p cnf 2 1\n1 0", 1, 4, Refused(1, 13, Text)),
    Row(b"p cnf 2 1\n1 0  ", 1, 4, Refused(1, 15, Text)),
    Row(b"p cnf 2 1\n1 0 2\n", 1, 4, Refused(1, 14, Text)),
    Row(b"p cnf 2 1\n1 0 0\n", 1, 4, Refused(1, 14, Text)),
    Row(b"p cnf 2 2\n1 0 2 0\n", 1, 4, Refused(1, 14, Text)),
    Row(b"p cnf 2 1\n", 1, 4, Refused(1, 10, Text)),
    Row(b"p cnf 2 1\n  ", 1, 4, Refused(1, 12, Text)),
    Row(b"p cnf 2 1\n\n1 0\n", 1, 4, Refused(1, 10, Text)),
    Row(b"p cnf 2 2\n1 0\n", 1, 4, Refused(1, 14, Text)),
    Row(b"p cnf 2 2\n1 0\n \n2 0\n", 1, 4, Refused(1, 15, Text)),
    Row(b"p cnf 2 1\n1 0\n2 0\n", 1, 4, Refused(1, 14, Text)),
    Row(b"p cnf 2 1\n1 0\n\n", 1, 4, Refused(1, 14, Text)),
    Row(b"p cnf 2 1\n1 0\n  ", 1, 4, Refused(1, 16, Text)),
    Row(b"p cnf 2 1\n1 0\n\0", 1, 4, Refused(1, 14, Text)),
];

// Whether n suits the text, and then whether the store has a record for each rule.
pub const ROOM_ROWS: [Row; 17] = [
    Row(b"p cnf 2 2\n1 0\n2 0\n", 2, 2, Accepted(2, 2)),
    Row(b"p cnf 2 2\n1 0\n2 0\n", 2, 9, Accepted(2, 2)),
    Row(b"p cnf 1 0\n", 1, 0, Accepted(1, 0)),
    Row(b"p cnf 2 2\n1 0\n2 0\n", 2, 1, Refused(3, 1, Store)),
    Row(b"p cnf 2 2\n1 0\n2 0\n", 2, 0, Refused(3, 0, Store)),
    Row(b"p cnf 2 2\n1 0\n2 0\n", 0, 2, Refused(4, 0, Sheet)),
    Row(b"p cnf 2 2\n1 0\n2 0\n", 3, 2, Refused(4, 0, Sheet)),
    Row(b"p cnf 2 2\n1 0\n2 0\n", 0, 1, Refused(4, 0, Sheet)),
    Row(b"p cnf 2 2\n1 0\n2 0\n", 3, 0, Refused(4, 0, Sheet)),
    Row(b"p cnf 64 0\n", 32, 4, Accepted(64, 0)),
    Row(b"p cnf 64 0\n", 33, 4, Refused(4, 0, Sheet)),
    Row(b"p cnf 32 0\n", 32, 4, Accepted(32, 0)),
    Row(b"p cnf 31 0\n", 32, 4, Refused(4, 0, Sheet)),
    Row(b"p cnf 64 1\n0\n", 33, 0, Refused(4, 0, Sheet)),
    Row(b"p cnf 64 0\n", usize::MAX, 4, Refused(4, 0, Sheet)),
    Row(b"p cnf 2 1\n3 0\n", 0, 0, Refused(2, 10, Text)),
    Row(b"p cnf 2 1\n1 0\n\n", 33, 0, Refused(1, 14, Text)),
];
