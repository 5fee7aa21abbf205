// The longest record, and bytes that are longer and still have the length that their counts call for.
use crate::sample::check_sample;
use std::alloc::{AllocError, Global};
use std::test::Fail;

// A header with all counts as high as they can be, and the arities of 16 predicates that make 512 facts.
const FRONT: [u8; 27] = *b"\
    \x01\x01\x09\x10\x10\x02\x78\x40\x18\x02\x00\
    \x02\x02\x02\x02\x02\x02\x01\x01\x00\x00\x00\x00\x00\x00\x00\x00";

// Appends copies of some bytes.
fn append(record: &mut Vec<u8>, bytes: &[u8], copies: u16) -> Result<(), AllocError> {
    // so many copies, and nothing to go over
    for _ in 0..copies {
        record.extend_from_slice(bytes)?;
    }
    Ok(())
}

// Appends 16 operators, each with so many preconditions and as many effects.
fn append_operators(record: &mut Vec<u8>, count: u8) -> Result<(), AllocError> {
    // so many operators, all alike, and nothing to go over
    for _ in 0..16 {
        record.extend_from_slice(&[2, count, count])?;
        append(record, &[1, 0, 16, 17], 2 * u16::from(count))?;
    }
    Ok(())
}

// Appends all facts as first facts.
// A function of its own, since a first fact has two bytes, and a goal literal three.
fn append_first(record: &mut Vec<u8>) -> Result<(), AllocError> {
    // facts are numbers, and there is no list of them
    for fact in 0..512u16 {
        record.extend_from_slice(&fact.to_be_bytes())?;
    }
    Ok(())
}

// Appends a goal on the facts below 64.
// A function of its own, since a goal literal has three bytes, and a first fact two.
fn append_goal(record: &mut Vec<u8>) -> Result<(), AllocError> {
    // facts are numbers, and there is no list of them
    for fact in 0..64 {
        record.extend_from_slice(&[1, 0, fact])?;
    }
    Ok(())
}

// A record in which nothing but the counts inside operators could be higher.
fn full(heap: Global, count: u8) -> Result<Vec<u8>, AllocError> {
    let mut record = FRONT.to_vec(heap)?;
    append_operators(&mut record, count)?;
    append_first(&mut record)?;
    append_goal(&mut record)?;
    append(&mut record, &[15, 0, 1, 255, 16], 120)?;
    Ok(record)
}

#[test]
fn longest(rt: HostRuntime) -> Result<(), Fail> {
    let record = full(rt.alloc(), 8)?;
    assert_eq!(rt; record.len(), 2915);
    check_sample(&rt, &record, 0)
}

#[test]
fn longer(rt: HostRuntime) -> Result<(), Fail> {
    let mut record = full(rt.alloc(), 255)?;
    assert_eq!(rt; record.len(), 34531);
    check_sample(&rt, &record, 6)?;
    record.push(0)?;
    check_sample(&rt, &record, 4)
}
