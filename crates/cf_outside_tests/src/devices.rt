// Each device once, by tables.
use cf_outside::{
    Failed, FileShelf, FreeGate, Gate, Held, HoldGate, MemShelf, MemSink, NotingShelf, OpenFault,
    Shelf, Sink, SteadyShelf, SteadySink,
};
use std::fs;
use std::test::Fail;
use std::thread::join;

#[test]
fn mem_shelf_reads_the_newest_file(rt: HostRuntime) -> Result<(), Fail> {
    let mut shelf = MemShelf::new(rt.alloc(), vec![in rt.alloc(); 1, 5]?, 7);
    shelf.put("capture", b"an older file")?;
    shelf.put("setup", b"another file")?;
    shelf.put("capture", b"0123456789abcdef")?;
    let opens = [
        ("capture", Err(OpenFault::Failed)),
        ("absent", Err(OpenFault::Missing)),
        ("capture", Ok(())),
    ];
    for (name, wanted) in opens {
        assert_eq!(rt; shelf.open(name), wanted);
    }
    let reads = [Some("0123456"), None, Some("789abcd"), Some("ef"), Some("")];
    for wanted in reads {
        let mut buf = [0u8; 16];
        match shelf.read(&mut buf) {
            Ok(count) => assert_eq!(rt; Some(&buf[..count]), wanted.map(|text| text.as_bytes())),
            Err(Failed) => assert_eq!(rt; wanted, None),
        }
    }
    Ok(())
}

#[test]
fn a_noting_shelf_tells_its_reads(rt: HostRuntime) -> Result<(), Fail> {
    let mut mem = MemShelf::new(rt.alloc(), vec![in rt.alloc(); 3]?, 7);
    mem.put("capture", b"0123456789")?;
    let mut shelf = NotingShelf::new(rt.alloc(), mem);
    assert_eq!(rt; shelf.open("capture"), Ok(()));
    let mut buf = [0u8; 16];
    for wanted in [Ok(7), Err(Failed), Ok(3), Ok(0)] {
        assert_eq!(rt; shelf.read(&mut buf), wanted);
    }
    assert_eq!(rt; shelf.moved(), [7, 3, 0].as_slice());
    Ok(())
}

#[test]
fn mem_sink_keeps_what_it_takes(rt: HostRuntime) -> Result<(), Fail> {
    let mut sink = MemSink::new(rt.alloc(), 12, vec![in rt.alloc(); 2]?, 5)?;
    let writes = [
        ("0123456789", Ok(5)),
        ("abcdefghij", Err(Failed)),
        ("abc", Ok(3)),
        ("ABCDEFGHIJ", Ok(4)),
        ("x", Err(Failed)),
        ("", Ok(0)),
    ];
    for (piece, wanted) in writes {
        assert_eq!(rt; sink.write(piece.as_bytes()), wanted);
    }
    assert_eq!(rt; sink.held(), b"01234abcABCD".as_slice());
    Ok(())
}

#[test]
fn steady_devices_never_fail(rt: HostRuntime) -> Result<(), Fail> {
    let mut shelf = SteadyShelf::new(rt.alloc());
    shelf.put("setup", b"0123456789")?;
    assert_eq!(rt; shelf.open("absent"), Err(OpenFault::Missing));
    assert_eq!(rt; shelf.open("setup"), Ok(()));
    let mut buf = [0u8; 8];
    assert_eq!(rt; shelf.read(&mut buf), Ok(8));
    assert_eq!(rt; shelf.read(&mut buf), Ok(2));
    assert_eq!(rt; &buf, b"89234567");
    assert_eq!(rt; SteadySink::new().write(b"0123456789"), Ok(10));
    FreeGate.before_append(0, 0);
    FreeGate.after_ask(0);
    Ok(())
}

#[test]
fn file_shelf_reads_a_file(rt: HostRuntime) -> Result<(), Fail> {
    let name = "file_shelf_reads_a_file.txt";
    fs::write(&rt, name, "0123456789")?;
    let mut shelf = FileShelf::new(&rt);
    assert_eq!(rt;
        shelf.open("file_shelf_reads_no_file.txt"),
        Err(OpenFault::Missing)
    );
    assert_eq!(rt; shelf.open(name), Ok(()));
    let mut buf = [0u8; 8];
    assert_eq!(rt; shelf.read(&mut buf), Ok(8));
    assert_eq!(rt; shelf.read(&mut buf), Ok(2));
    assert_eq!(rt; &buf, b"89234567");
    assert_eq!(rt; shelf.read(&mut buf), Ok(0));

    // A folder can be opened, and not read.
    assert_eq!(rt; shelf.open("."), Ok(()));
    assert_eq!(rt; shelf.read(&mut buf), Err(Failed));
    fs::remove_file(&rt, name)?;
    Ok(())
}

#[test]
fn hold_gate_orders_its_callers(rt: HostRuntime) {
    let gate = HoldGate::new(2);
    assert_eq!(rt; gate.report(), Held::Unused);
    join(
        &rt,
        || append_thrice(&gate, 0),
        || join(&rt, || append_thrice(&gate, 1), || ask_twice(&gate)),
    );
    assert!(rt; matches!(gate.report(), Held::Answered(_)));
}

// A writer of three records.
fn append_thrice(gate: &HoldGate, writer: u8) {
    for num in 0..3 {
        gate.before_append(writer, num);
    }
}

// A reader of two rounds.
fn ask_twice(gate: &HoldGate) {
    for round in 0..2 {
        gate.after_ask(round);
    }
}
