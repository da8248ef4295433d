// Which files are opened, live questions beside writers, and seals.
use crate::tried::{SETUP, TWO_RECORDS, WORDS, records, shelf_of};
use cf_outside::{
    Failed, FreeGate, Held, HoldGate, MemShelf, MemSink, OpenFault, Shelf, SteadyShelf, SteadySink,
};
use cf_run::{Status, run, run_steadily};
use std::test::Fail;

// Keeps the names that were opened.
#[derive(Drop)]
struct Listing {
    shelf: MemShelf,
    opened: String,
}

impl Shelf for Listing {
    ghost use Rattle.std.specs.declared.option.Option.TheVariants.{None};

    ghost files = { λ _. None };

    ghost rest = { λ _. None };

    ghost moved = { λ _. None };

    ghost faults = { λ s. s.shelf.script.faults };

    fn open(&mut self, name: &str) -> Result<(), OpenFault> {
        if self.opened.push_str(name).is_err() {
            return Err(OpenFault::Memory);
        }
        self.shelf.open(name)
    }

    fn read(&mut self, buf: &mut [u8]) -> Result<usize, Failed> {
        self.shelf.read(buf)
    }
}

#[test]
fn no_other_file_is_opened(rt: HostRuntime) -> Result<(), Fail> {
    let alloc = rt.alloc();
    let table: [(&[&str], &[u8], &str); 7] = [
        (&WORDS, SETUP, "sc"),
        (&WORDS, b"", "s"),
        (&["s", "c"], SETUP, ""),
        (&["dump", "c"], SETUP, "c"),
        (&["dump", "x"], SETUP, "x"),
        (
            &["synth", "--setup", "s", "--seed", "1", "--count", "1"],
            SETUP,
            "s",
        ),
        (
            &["synth", "--setup", "x", "--seed", "1", "--count", "1"],
            SETUP,
            "x",
        ),
    ];
    for (words, setup, opened) in table {
        let mut shelf = Listing {
            shelf: shelf_of(alloc, &[], 7, (setup, &TWO_RECORDS))?,
            opened: String::new(alloc),
        };
        let _ = run(
            &rt,
            alloc,
            words,
            &mut shelf,
            &mut SteadySink::new(),
            &FreeGate,
        );
        assert_eq!(rt; shelf.opened.as_str(), opened);
    }
    Ok(())
}

// Two writers append a record each, the reader asks before and after, and then they go on.
#[test]
fn live_questions_are_answered_beside_the_writers(rt: HostRuntime) -> Result<(), Fail> {
    let alloc = rt.alloc();
    let words = ["run", "--setup", "s", "--writers", "2", "--live", "2", "c"];
    let setup = b"schema packet\nask all list *\nlive all\n";
    let capture = records(alloc, &[(0, 200); 4])?;
    let mut shelf = shelf_of(alloc, &[], 1000, (setup, &capture))?;
    let mut sink = MemSink::new(alloc, 300, Vec::new(alloc), 300)?;
    let gate = HoldGate::new(2);
    let outcome = run(&rt, alloc, &words, &mut shelf, &mut sink, &gate);
    assert_eq!(rt; outcome.status, Status::Done);
    let text = str::from_utf8(sink.held())?;
    let front = "records 4\nask all list 4: 0 1 2 3\nlive all @0 list 0:\nlive all @2 list 2: ";
    let ends = [
        "0 1\norder 0*1 1*1 0*1 1*1\n",
        "0 1\norder 0*1 1*2 0*1\n",
        "1 0\norder 1*1 0*2 1*1\n",
        "1 0\norder 1*1 0*1 1*1 0*1\n",
    ];
    let end = text.strip_prefix(front).ok_or("another front")?;
    assert!(rt; ends.contains(&end));
    assert!(rt; matches!(gate.report(), Held::Answered(_)));
    Ok(())
}

#[test]
fn each_segment_is_sealed(rt: HostRuntime) -> Result<(), Fail> {
    let alloc = rt.alloc();
    let capture = records(alloc, &[(0, 200); 4097])?;
    let two = [
        "run",
        "--setup",
        "s",
        "--segments",
        "2",
        "--capacity",
        "4096",
        "c",
    ];
    for (words, seals) in [(WORDS.as_slice(), 1), (&two, 2)] {
        let mut shelf = SteadyShelf::new(alloc);
        shelf.put("s", b"schema packet\n")?;
        shelf.put("c", &capture)?;
        let mut sink = SteadySink::new();
        let outcome = run_steadily(&rt, alloc, words, &mut shelf, &mut sink, &FreeGate);
        assert_eq!(rt; outcome.status, Status::Done);
        assert_eq!(rt; outcome.seals.len(), seals);
    }
    Ok(())
}
