// Failing devices, and captures that come in pieces.
use crate::tried::{SETUP, TWO_RECORDS, WORDS, records, shelf_of};
use cf_outside::{FreeGate, MemSink};
use cf_run::run;
use std::test::Fail;

const DUMP: [&str; 2] = ["dump", "c"];

const SYNTH: [&str; 7] = ["synth", "--setup", "s", "--seed", "1", "--count", "3"];

#[test]
fn each_call_of_a_shelf_may_fail(rt: HostRuntime) -> Result<(), Fail> {
    let alloc = rt.alloc();
    // Opens, and reads of 7 bytes up to the end: 1 + 7 calls over the setup, 1 + 10 over the capture.
    let table: [(&[&str], u64); 3] = [(&WORDS, 19), (&DUMP, 11), (&SYNTH, 8)];
    for (words, calls) in table {
        for call in 1..=calls + 1 {
            let mut shelf = shelf_of(alloc, &[call], 7, (SETUP, &TWO_RECORDS))?;
            let mut sink = MemSink::new(alloc, 1000, Vec::new(alloc), 1000)?;
            let outcome = run(&rt, alloc, words, &mut shelf, &mut sink, &FreeGate);
            let number = if call > calls { 0 } else { 4 };
            assert_eq!(rt; outcome.status.number(), number, "call {call}");
            assert_eq!(rt; sink.held().is_empty(), call <= calls);
            assert_eq!(rt; outcome.seals.is_empty(), call <= calls || words.len() == 2);
        }
    }
    Ok(())
}

#[test]
fn each_write_may_fail(rt: HostRuntime) -> Result<(), Fail> {
    let alloc = rt.alloc();
    let table: [(&[&str], &[u8], &[u8], &str); 5] = [
        (&["run", "c"], SETUP, &TWO_RECORDS, "words: not a command\n"),
        (
            &["dump", "x"],
            SETUP,
            &TWO_RECORDS,
            "file: none of that name\n",
        ),
        (&WORDS, b"", &TWO_RECORDS, "setup: line 1 code 2\n"),
        (&DUMP, SETUP, b"", "capture: record 0 code 5\n"),
        (
            &WORDS,
            SETUP,
            &TWO_RECORDS,
            "records 2\nask big list 1: 1\norder 0*2\n",
        ),
    ];
    for (words, setup, capture, text) in table {
        for call in 1..=4u64 {
            let mut shelf = shelf_of(alloc, &[], 7, (setup, capture))?;
            let mut sink = MemSink::new(alloc, 100, [call].to_vec(alloc)?, 5)?;
            let outcome = run(&rt, alloc, words, &mut shelf, &mut sink, &FreeGate);
            assert_eq!(rt; outcome.status.number(), 5, "call {call}");
            let front = text.as_bytes().get(..5 * (call as usize - 1));
            assert_eq!(rt; Some(sink.held()), front);
            assert!(rt; outcome.seals.is_empty());
        }
    }
    Ok(())
}

// A report of 1,100 records has 4,435 bytes, and at most 4,096 are written at a time.
#[test]
fn a_long_text_is_written_in_pieces(rt: HostRuntime) -> Result<(), Fail> {
    let alloc = rt.alloc();
    let capture = records(alloc, &[(0, 200); 1100])?;
    for (call, size) in [(1, 0), (2, 4096), (3, 4435)] {
        let mut shelf = shelf_of(alloc, &[], 65_536, (SETUP, &capture))?;
        let mut sink = MemSink::new(alloc, 9000, [call].to_vec(alloc)?, 9000)?;
        let status = run(&rt, alloc, &WORDS, &mut shelf, &mut sink, &FreeGate).status;
        assert_eq!(rt; sink.held().len(), size, "{status:?}");
    }
    Ok(())
}

// The header and 4,097 records have 65,576 bytes: two pieces, and two batches. Of reads of 65,536 bytes the shelf's calls are three for
// the setup, the open, two of the capture, and the read that finds the end.
#[test]
fn a_capture_comes_in_pieces(rt: HostRuntime) -> Result<(), Fail> {
    let alloc = rt.alloc();
    let capture = records(alloc, &[(0, 200); 4097])?;
    let setup = b"schema packet\nask m total len *\n".as_slice();
    let text =
        "records 4097\nask m total count 4097 sum 819400 least 200 greatest 200\norder 0*4097\n";
    for (most, failing, number) in [
        (1, 0, 0),
        (7, 0, 0),
        (65_535, 0, 0),
        (65_537, 0, 0),
        (65_536, 4, 4),
        (65_536, 5, 4),
        (65_536, 6, 4),
        (65_536, 7, 4),
        (65_536, 8, 0),
    ] {
        assert!(rt; 0 < most);
        let mut shelf = shelf_of(alloc, &[failing], most, (setup, &capture))?;
        let mut sink = MemSink::new(alloc, 1000, Vec::new(alloc), 1000)?;
        let outcome = run(&rt, alloc, &WORDS, &mut shelf, &mut sink, &FreeGate);
        assert_eq!(rt; outcome.status.number(), number, "{most} {failing}");
        let due = if number == 0 { text } else { "" };
        assert_eq!(rt; sink.held(), due.as_bytes());
    }
    Ok(())
}
