// Positions given by clause texts.
use super::solvers::{Question, ask_all};
use dimacs_load::load;
use literals::LiteralSet;
use std::io;

// Two clause texts, and what is asked about them.
struct Position {
    make: &'static [u8],
    brk: &'static [u8],
    question: Question,
}

const POSITIONS: [Position; 6] = [
    Position {
        make: b"p cnf 2 1\n1 2 0\n",
        brk: b"p cnf 2 2\n-1 0\n-2 0\n",
        question: Question {
            name: "one of two closed",
            make_contacts: 2,
            break_contacts: 2,
            due: "2; 1;",
        },
    },
    // -2 -3 is made first, and struck since the other two cover what it covers
    Position {
        make: b"p cnf 3 2\n-1 -2 0\n1 -3 0\n",
        brk: b"p cnf 3 2\n-1 2 0\n1 3 0\n",
        question: Question {
            name: "first term struck",
            make_contacts: 3,
            break_contacts: 3,
            due: "-1 -3; 1 -2;",
        },
    },
    Position {
        make: b"p cnf 1 0\n",
        brk: b"p cnf 1 0\n",
        question: Question {
            name: "no rules on either",
            make_contacts: 1,
            break_contacts: 1,
            due: "refused 14 0",
        },
    },
    // the settings 0 to 2 are covered before 3, which both allow, is picked
    Position {
        make: b"p cnf 2 0\n",
        brk: b"p cnf 2 2\n1 0\n2 0\n",
        question: Question {
            name: "both allow the last",
            make_contacts: 2,
            break_contacts: 2,
            due: "refused 14 3",
        },
    },
    Position {
        make: b"p cnf 1 1\n0\n",
        brk: b"p cnf 1 0\n",
        question: Question {
            name: "nothing to cover",
            make_contacts: 1,
            break_contacts: 1,
            due: "none",
        },
    },
    Position {
        make: b"p cnf 2 0\n",
        brk: b"p cnf 1 0\n",
        question: Question {
            name: "other contacts",
            make_contacts: 2,
            break_contacts: 1,
            due: "refused 13 0",
        },
    },
];

fn run_position(rt: &impl Print, position: &Position) -> io::Result<()> {
    let question = &position.question;
    let mut make = [LiteralSet::empty(); 4];
    let mut brk = [LiteralSet::empty(); 4];
    match load(position.make, question.make_contacts, &mut make) {
        Err(_) => println!(rt; "the text of MAKE is refused"),
        Ok(make_size) => match load(position.brk, question.break_contacts, &mut brk) {
            Err(_) => println!(rt; "the text of BREAK is refused"),
            Ok(break_size) => {
                let make_count = make_size.count;
                let break_count = break_size.count;
                ask_all(rt, question, &make[0..make_count], &brk[0..break_count])
            }
        },
    }
}

pub fn run(rt: &impl Print) -> io::Result<()> {
    for position in &POSITIONS {
        run_position(rt, position)?;
    }
    Ok(())
}
