// Captures are watched read by read.
use crate::tried::{records, shelf_of};
use cf_outside::{FreeGate, MemSink};
use cf_run::run;
use std::alloc::Global;
use std::process::Abort;
use std::test::Fail;
use std::thread::Threads;

const SUM: &str =
    "schema packet\nfilter f *\naggregate a f len\ntrigger t a sum > 50\nask q list len>=1\nlive q\n";

// A second lane for the longer packets, which need twice as many nodes then.
const LONG: &str =
    "schema packet\nfilter f *\naggregate a f len\nfilter g len>90\naggregate b g len\ntrigger t a sum > 50\nask q list len>=1\n";

const COUNT: &str =
    "schema packet\nfilter f *\naggregate a f len\ntrigger t a count > 5\nask g fired t\n";

const LEAST: &str =
    "schema packet\nfilter f *\naggregate a f len\ntrigger t a least > 50\nask g fired t\n";

const FEW: &str =
    "schema packet\nfilter f *\naggregate a f len\ntrigger t a count < 3\nask g fired t\nlive g\n";

const OTHER: &str =
    "schema packet\nfilter f *\naggregate a f len\ntrigger t a sum != 18\nask g fired t\n";

const TWO: &[(u32, u32)] = &[(1, 60), (2, 100)];

const ROUND: &str = "alert t 1 60 @2\nalert t 2 100 @2\nlive q @0..2 list 2: 0 1\n";

const ROUNDS: &str =
    "alert t 1 60 @1\nlive q @0..1 list 1: 0\nalert t 2 100 @2\nlive q @0..2 list 2: 0 1\n";

const END: &str = "records 2\nwindow 0\nask q list 2: 0 1\nalert t 1 60\nalert t 2 100\n";

// Watches the capture by a setup and options, which may leave out the sizes. The devices are how many bytes a read gives, and which calls
// of the shelf and of the sink fail. Answers the status's number and the text.
fn watched<R: Threads + Sync + Abort>(
    rt: &R,
    alloc: Global,
    setup: &str,
    options: &str,
    capture: &[u8],
    devices: (usize, u64, u64),
) -> Result<(u8, String), Fail> {
    let mut words = Vec::new(alloc);
    for word in ["watch", "--setup", "s", "c"] {
        words.push(word)?;
    }
    for word in options.split_whitespace() {
        words.push(word)?;
    }
    if !options.contains("--capacity") {
        words.push("--capacity")?;
        words.push("64")?;
    }
    if !options.contains("--nodes") {
        words.push("--nodes")?;
        words.push("64")?;
    }
    let (most, failing_read, failing_write) = devices;
    assert!(rt; 0 < most);
    let mut shelf = shelf_of(alloc, &[failing_read], most, (setup.as_bytes(), capture))?;
    let mut sink = MemSink::new(alloc, 1000, [failing_write].to_vec(alloc)?, 1000)?;
    let outcome = run(rt, alloc, &words, &mut shelf, &mut sink, &FreeGate);
    assert!(rt; outcome.seals.is_empty());
    let text = str::from_utf8(sink.held())?.to_string(alloc)?;
    Ok((outcome.status.number(), text))
}

// By reads of 8 bytes each record ends a read.
#[test]
fn rounds_come_as_reads_cut_the_capture(rt: HostRuntime) -> Result<(), Fail> {
    let alloc = rt.alloc();
    let four: &[(u32, u32)] = &[(1, 60), (2, 100), (3, 60), (4, 100)];
    let table: [(&str, &str, &[(u32, u32)], usize, &str); 10] = [
        // a round before each drop
        (
            SUM,
            "--every 3 --capacity 1 --segments 2",
            four,
            1000,
            "alert t 1 60 @2\nalert t 2 100 @2\nalert t 3 60 @3\nlive q @1..3 list 2: 1 2\nalert t 4 100 @4\n\
             records 4\nwindow 2\nask q list 2: 2 3\nalert t 1 60\nalert t 2 100\nalert t 3 60\nalert t 4 100\n",
        ),
        // nodes run out in the middle of a read, while segments are free; and nothing is dropped for it
        (
            LONG,
            "--nodes 30",
            four,
            1000,
            "alert t 1 60 @1\nnodes: more than 30 nodes\n",
        ),
        (
            LONG,
            "--nodes 30 --capacity 1 --segments 1",
            four,
            8,
            "alert t 1 60 @1\nnodes: more than 30 nodes\n",
        ),
        // beats, and once more at the end
        (
            LONG,
            "--every 0 --beat 3",
            four,
            8,
            "alert t 1 60 @1\nalert t 2 100 @2\nalert t 3 60 @3\nat 3 3\ntotal a count 3 sum 220\ntotal b count 1 sum 100\n\
             alert t 4 100 @4\nat 4 4\ntotal a count 4 sum 320\ntotal b count 2 sum 200\n\
             records 4\nwindow 0\nask q list 4: 0 1 2 3\nalert t 1 60\nalert t 2 100\nalert t 3 60\nalert t 4 100\n",
        ),
        (
            SUM,
            "--beat 1",
            &[],
            8,
            "records 0\nwindow 0\nask q list 0:\n",
        ),
        // a bucket that is longer than the window is told once
        (
            COUNT,
            "--every 0 --capacity 2 --segments 2",
            &[(1, 9); 12],
            1000,
            "alert t 1 6 @6\nrecords 12\nwindow 8\nask g fired 1: 1=12\nalert t 1 12\n",
        ),
        // the part of a bucket that is left doesn't fire for it
        (
            LEAST,
            "--capacity 1 --segments 1",
            &[(1, 40), (1, 60), (1, 70), (2, 60), (3, 60)],
            1000,
            "records 5\nwindow 4\nask g fired 2: 2=60 3=60\nalert t 2 60\nalert t 3 60\n",
        ),
        // what more records may undo waits for two later buckets
        (
            FEW,
            "--every 4",
            &[(1, 9), (2, 9), (3, 9), (4, 9)],
            8,
            "alert t 1 1 @3\nalert t 2 1 @4\nlive g @0..4 fired 2: 1=1 2=1\nrecords 4\nwindow 0\n\
             ask g fired 4: 1=1 2=1 3=1 4=1\nalert t 1 1\nalert t 2 1\nalert t 3 1\nalert t 4 1\n",
        ),
        // a mark that was undone and came again is told once
        (
            OTHER,
            "--every 0",
            &[(1, 9), (2, 9), (3, 9), (1, 9), (1, 9), (2, 9), (3, 9)],
            8,
            "alert t 1 9 @3\nalert t 2 9 @4\nalert t 3 9 @6\nrecords 7\nwindow 0\nask g fired 1: 1=27\nalert t 1 27\n",
        ),
        // later by their last records, and not by their numbers
        (
            FEW,
            "--every 0",
            &[(1, 9), (4_000_000_000, 9), (2, 9), (3, 9), (4, 9)],
            8,
            "alert t 1 1 @3\nalert t 4000000000 1 @4\nalert t 2 1 @5\nrecords 5\nwindow 0\n\
             ask g fired 5: 1=1 2=1 3=1 4=1 4000000000=1\nalert t 1 1\nalert t 2 1\nalert t 3 1\nalert t 4 1\nalert t 4000000000 1\n",
        ),
    ];
    for (setup, options, packets, most, text) in table {
        let capture = records(alloc, packets)?;
        let (number, found) = watched(&rt, alloc, setup, options, &capture, (most, 0, 0))?;
        assert_eq!(rt; found.as_str(), text);
        assert_eq!(rt; number, if text.contains("nodes:") { 7 } else { 0 });
    }
    Ok(())
}

// The first record ends with byte 40, and the second with byte 56.
#[test]
fn reads_of_any_size_give_the_same_end(rt: HostRuntime) -> Result<(), Fail> {
    let alloc = rt.alloc();
    let capture = records(alloc, TWO)?;
    for most in 1..60usize {
        let is_one = 39 / most == 55 / most;
        let told = if is_one { ROUND } else { ROUNDS };
        let text = format!(in alloc; "{told}{END}")?;
        let (number, found) = watched(&rt, alloc, SUM, "--every 1", &capture, (most, 0, 0))?;
        assert_eq!(rt; found.as_str(), text.as_str(), "by {most}");
        assert_eq!(rt; number, 0);
    }
    Ok(())
}

// By reads of 40 bytes the shelf's calls are five for the setup, the open, a read of each record, and the read that finds the end.
#[test]
fn devices_fail_while_a_capture_is_watched(rt: HostRuntime) -> Result<(), Fail> {
    let alloc = rt.alloc();
    let capture = records(alloc, TWO)?;
    let first = "alert t 1 60 @1\n";
    let both = "alert t 1 60 @1\nalert t 2 100 @2\n";
    let beat = "alert t 1 60 @1\nat 1 1\ntotal a count 1 sum 60\n";
    for (options, devices, number, text) in [
        ("--every 0", (40, 1, 0), 4, ""),
        ("--every 0", (40, 6, 0), 4, ""),
        ("--every 0", (40, 7, 0), 4, ""),
        ("--every 0", (40, 8, 0), 4, first),
        ("--every 0", (40, 9, 0), 4, both),
        ("--every 0 --beat 9", (40, 8, 0), 4, beat),
        // what would fail next is not read
        ("--every 0", (40, 8, 1), 5, ""),
        ("--every 0", (40, 9, 2), 5, first),
        ("--every 0", (40, 0, 3), 5, both),
        // what a forced round says is written before the next record
        (
            "--every 0 --capacity 1 --segments 1",
            (1000, 0, 2),
            5,
            first,
        ),
    ] {
        let (status, found) = watched(&rt, alloc, SUM, options, &capture, devices)?;
        assert_eq!(rt; found.as_str(), text, "{options} {devices:?}");
        assert_eq!(rt; status, number);
    }
    // A fault is told before what follows it is read.
    let (status, found) = watched(&rt, alloc, "schema packet\n", "", &[0; 60], (20, 6, 0))?;
    assert_eq!(rt; found.as_str(), "capture: record 0 code 1\n");
    assert_eq!(rt; status, 3);
    Ok(())
}
