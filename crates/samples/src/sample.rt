// What every sample is held to.
use crate::answer;
use feeder::read::read;
use feeder::record::Feeder;
use feeder::write::{LONGEST, write};
use std::process::Abort;
use std::test::Fail;

// A buffer before anything is written.
const BLANK: [u8; LONGEST] = [165; LONGEST];

// A buffer that is one byte too short for the record is refused under 62, and stays as it was.
fn check_refused(rt: &impl Abort, feeder: &Feeder, record: &[u8]) -> Result<(), Fail> {
    let mut out = BLANK;
    assert!(rt; 0 < record.len() && record.len() <= LONGEST);
    let room = record.len() - 1;
    let short = &mut out[0..room];
    assert_eq!(rt;
        write(feeder, &mut *short).map_err(|refusal| refusal.number()),
        Err(62)
    );
    assert_eq!(rt; &*short, &BLANK[0..room]);
    Ok(())
}

// The record is written to the front of a buffer with room for any, and what lies behind it stays as it was.
fn check_written(rt: &impl Abort, feeder: &Feeder, record: &[u8]) -> Result<(), Fail> {
    let mut out = BLANK;
    assert!(rt; record.len() <= LONGEST);
    assert_eq!(rt; write(feeder, &mut out), Ok(record.len()));
    assert_eq!(rt; &out[0..record.len()], record);
    assert_eq!(rt; &out[record.len()..LONGEST], &BLANK[record.len()..LONGEST]);
    Ok(())
}

// A sample is answered with its number, that of a refusal, as programs print it.
// Where it is 0, there is no refusal: the sample is a record, and is written back to the same bytes.
pub(crate) fn check_sample(rt: &impl Abort, bytes: &[u8], number: u8) -> Result<(), Fail> {
    assert_eq!(rt; answer(bytes), number, "of the sample {bytes:?}");
    if let Ok(feeder) = read(bytes) {
        check_refused(rt, &feeder, bytes)?;
        check_written(rt, &feeder, bytes)?;
    }
    Ok(())
}
