// The example of three sections, as it stands, cut short, and with some of its bytes changed.
// Answers are the numbers of refusals, as programs print them; 0 is no refusal.
use crate::sample::check_sample;
use std::process::Abort;
use std::test::Fail;

// Its header, the arities, the switches and the fed section, the first facts, the goal, and the formula.
pub(crate) const EXAMPLE: [u8; 50] = *b"\
    \x01\x02\x03\x03\x02\x01\x05\x02\x02\x00\x02\
    \x01\x01\x01\
    \x00\x01\x01\x02\x00\x01\
    \x00\x00\x00\x01\
    \x01\x00\x05\x01\x00\x07\
    \x02\x02\x10\x00\x02\x01\x10\x00\x05\x01\x00\x00\x0c\x00\x02\x00\x0a\x03\x00\x00";

// One fault for each check, from the last to the second: a place, the byte put there, and the answer.
const FAULTS: [(usize, u8, u8); 8] = [
    // a node of kind 14
    (46, 14, 9),
    // a goal literal of sign 2
    (24, 2, 8),
    // a first fact that says that section 0 is live
    (23, 6, 7),
    // a switch with equal ends
    (15, 0, 6),
    // a predicate of no object
    (11, 0, 5),
    // three first facts in place of two
    (10, 3, 4),
    // 17 sections
    (2, 17, 3),
    // version 2
    (0, 2, 2),
];

// Other changes of the example: a place, the bytes put there, and the answer.
const CHANGES: [(usize, &[u8], u8); 48] = [
    // version 0
    (0, &[0], 2),
    // a plant of no kind
    (1, &[0], 3),
    (1, &[3], 3),
    // no section
    (2, &[0], 3),
    // two predicates, and four, where a network has three
    (3, &[2], 3),
    (3, &[4], 3),
    // more switches than sections
    (4, &[4], 3),
    // rules of no kind
    (5, &[0], 3),
    (5, &[3], 3),
    // a formula with no node, and one of 121
    (6, &[0], 3),
    (6, &[121], 3),
    // 65 goal literals
    (7, &[65], 3),
    // a limit of 25 moves, and one of 24
    (8, &[25], 3),
    (8, &[24], 0),
    // 513 first facts, and 512, which are not there
    (9, &[2, 1], 3),
    (9, &[2, 0], 4),
    // one switch more, and one fewer
    (4, &[3], 4),
    (4, &[1], 4),
    // one node fewer
    (6, &[4], 4),
    // one goal literal fewer
    (7, &[1], 4),
    // chart lines, which are longer than nodes
    (5, &[2], 4),
    // a predicate of two objects, and one of arity 3
    (13, &[2], 5),
    (13, &[3], 5),
    // a switch from, and one to, a section that does not exist
    (14, &[3], 6),
    (17, &[3], 6),
    // a fed section that does not exist: the first such, and the last
    (18, &[0, 8], 6),
    (18, &[128, 1], 6),
    // all sections are fed, or none
    (18, &[0, 7], 0),
    (18, &[0, 0], 0),
    // two switches with the same ends
    (16, &[0, 1], 0),
    (16, &[1, 0], 0),
    // first facts that fall, and equal ones
    (20, &[0, 1, 0, 0], 7),
    (20, &[0, 1, 0, 1], 7),
    // closed of a switch that does not exist
    (22, &[0, 2], 7),
    // a first fact that does not exist
    (22, &[0, 9], 7),
    (22, &[1, 1], 7),
    // section 2 is earthed at the start
    (22, &[0, 5], 0),
    // goal facts that do not exist, that are equal, and that fall
    (28, &[0, 9], 8),
    (28, &[1, 6], 8),
    (28, &[0, 5], 8),
    (28, &[0, 4], 8),
    // a goal may want a fact false, and speak of a switch that does not exist and of the last fact
    (27, &[0], 0),
    (25, &[0, 2], 0),
    (28, &[0, 8], 0),
    // the formula's last node is its own part, or has a part that does not exist
    (47, &[4], 9),
    (47, &[5], 9),
    // the quantifier is over another variable than its range has
    (45, &[1], 9),
    // the quantifier's range is another atom
    (43, &[1, 2], 9),
];

// A record of the example's length with some bytes put at a place.
fn with(rt: &impl Abort, record: &[u8; 50], at: usize, bytes: &[u8]) -> [u8; 50] {
    assert!(rt; at <= 50 && bytes.len() <= 50 - at);
    let mut changed = *record;
    changed[at..at + bytes.len()].copy_from_slice(bytes);
    changed
}

#[test]
fn whole_and_cut_short(rt: HostRuntime) -> Result<(), Fail> {
    check_sample(&rt, &EXAMPLE, 0)?;
    // all shorter lengths: numbers, of which there is no list
    for kept in 0..50 {
        let number = if kept < 11 { 1 } else { 4 };
        check_sample(&rt, &EXAMPLE[0..kept], number)?;
    }
    Ok(())
}

#[test]
fn first_fault_is_answered(rt: HostRuntime) -> Result<(), Fail> {
    let mut faulty = EXAMPLE;
    for (at, byte, number) in FAULTS {
        // the fault alone
        check_sample(&rt, &with(&rt, &EXAMPLE, at, &[byte]), number)?;
        // together with those that later checks would find
        faulty = with(&rt, &faulty, at, &[byte]);
        check_sample(&rt, &faulty, number)?;
        // behind the first check
        check_sample(&rt, &faulty[0..10], 1)?;
    }
    Ok(())
}

#[test]
fn changed(rt: HostRuntime) -> Result<(), Fail> {
    for (at, bytes, number) in CHANGES {
        check_sample(&rt, &with(&rt, &EXAMPLE, at, bytes), number)?;
    }
    Ok(())
}
