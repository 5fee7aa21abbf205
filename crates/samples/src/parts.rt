// Short records, each with one part that is tried in many forms.
// Where nothing else is said, they have an action table with two objects and three predicates, one of each arity,
// and so seven facts.
// Answers are the numbers of refusals, as programs print them; 0 is no refusal.
use crate::sample::check_sample;
use std::alloc::{AllocError, Global};
use std::process::Abort;
use std::test::Fail;

// A record's front and the rows of its last part, joined.
fn joined<const N: usize>(
    heap: Global,
    front: &[u8],
    rows: &[[u8; N]],
) -> Result<Vec<u8>, AllocError> {
    let mut record = front.to_vec(heap)?;
    for row in rows {
        record.extend_from_slice(row)?;
    }
    Ok(record)
}

// How many objects there are, the arity of each predicate, and the answer.
const PREDICATES: [(u8, &[u8], u8); 8] = [
    // the shortest record
    (1, &[0], 0),
    (1, &[3], 5),
    // 512 facts, and one more
    (16, &[2, 2], 0),
    (16, &[2, 2, 0], 5),
    // 16 predicates of one object each, and of two
    (16, &[1; 16], 0),
    (16, &[2; 16], 5),
    // 16 predicates that make 512 facts, and more
    (9, &[2, 2, 2, 2, 2, 2, 1, 1, 0, 0, 0, 0, 0, 0, 0, 0], 0),
    (9, &[2, 2, 2, 2, 2, 2, 1, 1, 1, 0, 0, 0, 0, 0, 0, 0], 5),
];

// How many sections a network without switches has, which of them are fed, and the answer.
const FED: [(u8, [u8; 2], u8); 6] = [
    (1, [0, 1], 0),
    (1, [0, 2], 6),
    (8, [1, 0], 6),
    (15, [127, 255], 0),
    (15, [255, 255], 6),
    (16, [255, 255], 0),
];

// The three counts of an operator, its literals, and the answer.
const OPERATORS: [([u8; 3], &[[u8; 4]], u8); 19] = [
    ([0, 0, 0], &[], 0),
    ([2, 1, 2], &[[1, 2, 16, 17], [0, 1, 16, 0], [1, 0, 0, 0]], 0),
    // one atom with both signs
    ([0, 1, 1], &[[0, 1, 1, 0], [1, 1, 1, 0]], 0),
    // eight preconditions or effects, and nine
    ([0, 8, 1], &[[1, 0, 0, 0]; 9], 0),
    ([0, 1, 8], &[[1, 0, 0, 0]; 9], 0),
    ([0, 9, 0], &[[1, 0, 0, 0]; 9], 6),
    ([0, 0, 9], &[[1, 0, 0, 0]; 9], 6),
    // three parameters
    ([3, 0, 0], &[], 6),
    // sign 2
    ([0, 1, 0], &[[2, 0, 0, 0]], 6),
    // a predicate that does not exist
    ([0, 1, 0], &[[1, 3, 0, 0]], 6),
    // an object that does not exist
    ([0, 1, 0], &[[1, 1, 2, 0]], 6),
    // parameters that the operator has not
    ([0, 1, 0], &[[1, 1, 16, 0]], 6),
    ([1, 0, 1], &[[1, 2, 16, 17]], 6),
    ([2, 0, 1], &[[1, 2, 16, 18]], 6),
    // terms that the predicate does not take
    ([0, 0, 1], &[[1, 1, 0, 1]], 6),
    ([0, 0, 1], &[[1, 0, 1, 0]], 6),
    ([1, 0, 1], &[[1, 0, 16, 0]], 6),
    // one literal fewer, and one more
    ([0, 1, 0], &[], 4),
    ([0, 1, 0], &[[1, 0, 0, 0], [1, 0, 0, 0]], 4),
];

// The first facts, and the answer.
const FIRST_FACTS: [(&[[u8; 2]], u8); 5] = [
    (&[[0, 0], [0, 1], [0, 6]], 0),
    // a fact that does not exist
    (&[[0, 7]], 7),
    (&[[1, 0]], 7),
    // facts that do not rise
    (&[[0, 6], [0, 6]], 7),
    (&[[0, 6], [0, 1]], 7),
];

// The nodes of a formula, and the answer.
const FORMULAS: [(&[[u8; 4]], u8); 28] = [
    // every kind of node
    (
        &[
            [0, 0, 0, 0],
            [1, 0, 0, 0],
            [11, 0, 1, 0],
            [2, 1, 16, 0],
            [3, 2, 16, 19],
            [4, 0, 16, 19],
            [8, 5, 0, 0],
            [13, 4, 6, 3],
            [5, 7, 0, 0],
            [12, 3, 8, 0],
            [9, 9, 0, 0],
            [7, 2, 10, 0],
            [2, 0, 0, 0],
            [6, 12, 11, 0],
            [10, 13, 0, 0],
        ],
        0,
    ),
    // quantifiers of one variable side by side
    (
        &[
            [2, 1, 19, 0],
            [0, 0, 0, 0],
            [12, 0, 1, 3],
            [3, 1, 19, 0],
            [1, 0, 0, 0],
            [13, 3, 4, 3],
            [6, 2, 5, 0],
        ],
        0,
    ),
    // a range in which the variable stands twice
    (&[[3, 2, 16, 16], [0, 0, 0, 0], [13, 0, 1, 0]], 0),
    // SAME of two objects
    (&[[4, 0, 0, 1]], 0),
    // an unknown kind
    (&[[14, 0, 0, 0]], 9),
    // bytes that are not used, but not 0
    (&[[0, 0, 0, 1]], 9),
    (&[[2, 0, 1, 0]], 9),
    (&[[2, 1, 1, 1]], 9),
    (&[[4, 1, 0, 0]], 9),
    (&[[0, 0, 0, 0], [5, 0, 1, 0]], 9),
    (&[[0, 0, 0, 0], [0, 0, 0, 0], [6, 0, 1, 1]], 9),
    // a predicate and objects that do not exist
    (&[[2, 3, 0, 0]], 9),
    (&[[2, 1, 2, 0]], 9),
    (&[[4, 0, 2, 0]], 9),
    // a part with a higher number, and a node that is its own part
    (&[[5, 1, 0, 0], [0, 0, 0, 0], [5, 0, 0, 0]], 9),
    (&[[5, 0, 0, 0], [0, 0, 0, 0]], 9),
    // a node that is part of another twice, or of two others
    (&[[0, 0, 0, 0], [6, 0, 0, 0]], 9),
    (&[[0, 0, 0, 0], [5, 0, 0, 0], [6, 0, 1, 0]], 9),
    // a node that is part of no other
    (&[[0, 0, 0, 0], [1, 0, 0, 0]], 9),
    // free variables: in an atom, in a body, in a range, beside the quantifier
    (&[[2, 1, 16, 0]], 9),
    (&[[2, 1, 16, 0], [2, 1, 17, 0], [12, 0, 1, 0]], 9),
    (&[[2, 2, 16, 17], [0, 0, 0, 0], [12, 0, 1, 0]], 9),
    (
        &[
            [2, 1, 16, 0],
            [0, 0, 0, 0],
            [12, 0, 1, 0],
            [4, 0, 0, 16],
            [6, 2, 3, 0],
        ],
        9,
    ),
    // a variable that is bound twice on the way up
    (
        &[
            [2, 1, 16, 0],
            [2, 1, 16, 0],
            [0, 0, 0, 0],
            [12, 1, 2, 0],
            [12, 0, 3, 0],
        ],
        9,
    ),
    // a fifth variable
    (&[[2, 1, 20, 0], [0, 0, 0, 0], [12, 0, 1, 4]], 9),
    // ranges without the variable
    (&[[2, 1, 1, 0], [0, 0, 0, 0], [12, 0, 1, 0]], 9),
    (&[[2, 0, 0, 0], [0, 0, 0, 0], [12, 0, 1, 0]], 9),
    // a range that is no atom
    (&[[4, 0, 16, 16], [0, 0, 0, 0], [12, 0, 1, 0]], 9),
];

// The lines of a chart, and the answer.
const CHARTS: [(&[[u8; 5]], u8); 7] = [
    (&[], 0),
    (&[[15, 1, 0, 6, 16], [0, 0, 0, 0, 0]], 0),
    // a line from step 16, and one to step 17
    (&[[16, 1, 0, 0, 0]], 9),
    (&[[0, 1, 0, 0, 17]], 9),
    // sign 2
    (&[[0, 2, 0, 0, 0]], 9),
    // facts that do not exist
    (&[[0, 1, 0, 7, 0]], 9),
    (&[[0, 1, 1, 0, 0]], 9),
];

#[test]
fn predicates(rt: HostRuntime) -> Result<(), Fail> {
    for (objects, arities, number) in PREDICATES {
        let count = u8::try_from(arities.len())?;
        let mut record = [1, 1, objects, count, 0, 2, 0, 0, 0, 0, 0].to_vec(rt.alloc())?;
        record.extend_from_slice(arities)?;
        check_sample(&rt, &record, number)?;
    }
    Ok(())
}

#[test]
fn fed_sections(rt: HostRuntime) -> Result<(), Fail> {
    for (sections, [high, low], number) in FED {
        check_sample(
            &rt,
            &[1, 2, sections, 3, 0, 2, 0, 0, 0, 0, 0, 1, 1, 1, high, low],
            number,
        )?;
    }
    Ok(())
}

#[test]
fn operators(rt: HostRuntime) -> Result<(), Fail> {
    for ([parameters, preconditions, effects], literals, number) in OPERATORS {
        let mut front = [1, 1, 2, 3, 1, 2, 0, 0, 0, 0, 0, 0, 1, 2].to_vec(rt.alloc())?;
        front.extend_from_slice(&[parameters, preconditions, effects])?;
        check_sample(&rt, &joined(rt.alloc(), &front, literals)?, number)?;
        // the last of the counts is cut off
        front.pop();
        check_sample(&rt, &front, 4)?;
    }
    Ok(())
}

// Records with a front that holds how many rows follow it, and with those rows, each with its answer.
fn check_rows<const N: usize, F: Fn(u8) -> [u8; 14]>(
    rt: &impl Abort,
    heap: Global,
    cases: &[(&[[u8; N]], u8)],
    front: F,
) -> Result<(), Fail>
    requires { F.IsAlwaysCallable front }
{
    for (rows, number) in cases {
        let count = u8::try_from(rows.len())?;
        check_sample(rt, &joined(heap, &front(count), rows)?, *number)?;
    }
    Ok(())
}

#[test]
fn first_facts(rt: HostRuntime) -> Result<(), Fail> {
    check_rows(&rt, rt.alloc(), &FIRST_FACTS, |count| {
        [1, 1, 2, 3, 0, 2, 0, 0, 0, 0, count, 0, 1, 2]
    })
}

#[test]
fn formulas(rt: HostRuntime) -> Result<(), Fail> {
    check_rows(&rt, rt.alloc(), &FORMULAS, |count| {
        [1, 1, 2, 3, 0, 1, count, 0, 0, 0, 0, 0, 1, 2]
    })
}

#[test]
fn charts(rt: HostRuntime) -> Result<(), Fail> {
    check_rows(&rt, rt.alloc(), &CHARTS, |count| {
        [1, 1, 2, 3, 0, 2, count, 0, 0, 0, 0, 0, 1, 2]
    })
}
