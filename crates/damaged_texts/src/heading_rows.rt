// Clause texts that are damaged before their rules, and sound ones beside them.
use crate::outcome::Outcome::{Accepted, Refused};
use crate::rows::Row;
use faults::Layer::Text;

// What stands in place of `p` or of `cnf`.
pub const FORMAT_ROWS: [Row; 22] = [
    Row(b"", 1, 4, Refused(1, 0, Text)),
    Row(b" ", 1, 4, Refused(1, 1, Text)),
    Row(b"\n", 1, 4, Refused(1, 0, Text)),
    Row(b"   \n", 1, 4, Refused(1, 3, Text)),
    Row(b"\np cnf 1 0\n", 1, 4, Refused(1, 0, Text)),
    Row(b"q cnf 1 0\n", 1, 4, Refused(1, 0, Text)),
    Row(b"P cnf 1 0\n", 1, 4, Refused(1, 0, Text)),
    Row(b"pp cnf 1 0\n", 1, 4, Refused(1, 0, Text)),
    Row(b"  x cnf 1 0\n", 1, 4, Refused(1, 2, Text)),
    Row(b"\tp cnf 1 0\n", 1, 4, Refused(1, 0, Text)),
    Row(b"\0p cnf 1 0\n", 1, 4, Refused(1, 0, Text)),
    Row(b"\xc8 cnf 1 0\n", 1, 4, Refused(1, 0, Text)),
    Row(b"pcnf 1 0\n", 1, 4, Refused(1, 0, Text)),
    Row(b"p\tcnf 1 0\n", 1, 4, Refused(1, 0, Text)),
    Row(b"p", 1, 4, Refused(1, 1, Text)),
    Row(b"p\n", 1, 4, Refused(1, 1, Text)),
    Row(b"p dnf 1 0\n", 1, 4, Refused(1, 2, Text)),
    Row(b"p cnfx 1 0\n", 1, 4, Refused(1, 2, Text)),
    Row(b"p cn f 1 0\n", 1, 4, Refused(1, 2, Text)),
    Row(b"p  CNF 1 0\n", 1, 4, Refused(1, 3, Text)),
    Row(b"p cnf", 1, 4, Refused(1, 5, Text)),
    Row(b"p cnf\n1 0\n", 1, 4, Refused(1, 5, Text)),
];

// What stands in place of the number of variables.
pub const VARIABLE_ROWS: [Row; 19] = [
    Row(b"p cnf 64 0\n", 1, 4, Accepted(64, 0)),
    Row(b"p cnf 65 0\n", 1, 4, Refused(2, 6, Text)),
    Row(b"p cnf 0 0\n", 1, 4, Refused(2, 6, Text)),
    Row(b"p cnf 257 0\n", 1, 4, Refused(2, 6, Text)),
    Row(b"p cnf 4294967297 0\n", 1, 4, Refused(2, 6, Text)),
    Row(b"p cnf 18446744073709551617 0\n", 1, 4, Refused(2, 6, Text)),
    Row(b"p cnf 65 x\n", 1, 4, Refused(2, 6, Text)),
    Row(b"p cnf x 0\n", 1, 4, Refused(1, 6, Text)),
    Row(b"p cnf +1 0\n", 1, 4, Refused(1, 6, Text)),
    Row(b"p cnf -1 0\n", 1, 4, Refused(1, 6, Text)),
    Row(b"p cnf -0 0\n", 1, 4, Refused(1, 6, Text)),
    Row(b"p cnf 00 0\n", 1, 4, Refused(1, 6, Text)),
    Row(b"p cnf 01 0\n", 1, 4, Refused(1, 6, Text)),
    Row(b"p cnf 1. 0\n", 1, 4, Refused(1, 6, Text)),
    Row(b"p cnf 1\t0\n", 1, 4, Refused(1, 6, Text)),
    Row(b"p cnf 1\0 0\n", 1, 4, Refused(1, 6, Text)),
    Row(b"p cnf \xc8 0\n", 1, 4, Refused(1, 6, Text)),
    Row(b"p cnf 1", 1, 4, Refused(1, 7, Text)),
    Row(b"p cnf 1\n0\n", 1, 4, Refused(1, 7, Text)),
];

// What stands in place of the number of rules, and behind it.
pub const COUNT_ROWS: [Row; 23] = [
    Row(b"p cnf 1 0\n", 1, 4, Accepted(1, 0)),
    Row(b"  p   cnf  1   0  \n", 1, 4, Accepted(1, 0)),
    Row(b"p cnf 1 4096\n", 1, 4, Refused(1, 13, Text)),
    Row(b"p cnf 1 4097\n", 1, 4, Refused(2, 8, Text)),
    Row(b"p cnf 1 65536\n", 1, 4, Refused(2, 8, Text)),
    Row(b"p cnf 1 18446744073709551616\n", 1, 4, Refused(2, 8, Text)),
    Row(b"p cnf 1 x\n", 1, 4, Refused(1, 8, Text)),
    Row(b"p cnf 1 +0\n", 1, 4, Refused(1, 8, Text)),
    Row(b"p cnf 1 -1\n", 1, 4, Refused(1, 8, Text)),
    Row(b"p cnf 1 -0\n", 1, 4, Refused(1, 8, Text)),
    Row(b"p cnf 1 00\n", 1, 4, Refused(1, 8, Text)),
    Row(b"p cnf 1 01\n1 0\n", 1, 4, Refused(1, 8, Text)),
    Row(b"p cnf 1 0\r\n", 1, 4, Refused(1, 8, Text)),
    Row(b"p cnf 1 0", 1, 4, Refused(1, 9, Text)),
    Row(b"p cnf 1 0 ", 1, 4, Refused(1, 10, Text)),
    Row(b"p cnf 1 0 x\n", 1, 4, Refused(1, 10, Text)),
    Row(b"p cnf 1 0 0\n", 1, 4, Refused(1, 10, Text)),
    Row(b"p cnf 1 0\n\n", 1, 4, Refused(1, 10, Text)),
    Row(b"p cnf 1 0\n ", 1, 4, Refused(1, 11, Text)),
    Row(b"p cnf 1 0\n  \n", 1, 4, Refused(1, 12, Text)),
    Row(b"p cnf 1 0\n   x", 1, 4, Refused(1, 13, Text)),
    Row(b"p cnf 1 0\n1 0\n", 1, 4, Refused(1, 10, Text)),
    Row(b"p cnf 1 0\np cnf 1 0\n", 1, 4, Refused(1, 10, Text)),
];

// Lines of comment where they may stand and where not.
pub const COMMENT_ROWS: [Row; 15] = [
    Row(b"c\np cnf 1 0\n", 1, 4, Accepted(1, 0)),
    Row(
        b"c p cnf 9 9\ncnf 1 0\n  c\np cnf 2 0\n",
        1,
        4,
        Accepted(2, 0),
    ),
    Row(b"c\tx\r\0\xc8\np cnf 3 0\n", 1, 4, Accepted(3, 0)),
    Row(b"c", 1, 4, Refused(1, 1, Text)),
    Row(b"c no end", 1, 4, Refused(1, 8, Text)),
    Row(b"c x   ", 1, 4, Refused(1, 6, Text)),
    Row(b"c\n", 1, 4, Refused(1, 2, Text)),
    Row(b"c\n\np cnf 1 0\n", 1, 4, Refused(1, 2, Text)),
    Row(b"c\n  \np cnf 1 0\n", 1, 4, Refused(1, 4, Text)),
    Row(b"\nc\np cnf 1 0\n", 1, 4, Refused(1, 0, Text)),
    Row(b"C\np cnf 1 0\n", 1, 4, Refused(1, 0, Text)),
    Row(b"p cnf 1 0\nc\n", 1, 4, Refused(1, 10, Text)),
    Row(b"p cnf 1 1\nc\n1 0\n", 1, 4, Refused(1, 10, Text)),
    Row(b"p cnf 1 1\n1 0 c\n", 1, 4, Refused(1, 14, Text)),
    Row(b"p cnf 1 1\n1 0\nc\n", 1, 4, Refused(1, 14, Text)),
];
