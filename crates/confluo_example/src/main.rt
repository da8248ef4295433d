//! An example of the library: two threads append to a log while a third asks it, and then the whole log is asked.
#![tactic(auto)]

ghost use Rattle.std.specs.Prelude.{◌≡◌, ◌<◌, [], ◌∷◌, All, length, map, IfOk};
ghost use Rattle.std.specs.List.{range_with_len};
ghost use Rattle.cf_row.specs.Row.{Fits};
ghost use Rattle.cf_setup.specs.Setups.{shaped};
ghost use Rattle.cf_plain.specs.Asks.{Suits};
ghost use Rattle.cf_log.specs.Writers.{AppendsRows, IsOpened, IsWriter};
ghost use Rattle.confluo_example.specs.Example.{HasFound, HasWritten, figure_of, sent};

use anyhow::{Result, bail};
use cf_log::{
    Answer, AppendFault, Ask, Body, MultiLog, Opened, Row, Schema, Setup, Value, WriterPass,
    append_rows, ask_all, fits, join_writers, open, parse_setup,
};
use std::alloc::Global;
use std::thread::{Threads, join_mut};

const SETUP: &str = "schema records ts:u64,src:u32,len:u32
width 1000
index senders src
filter large len>=1000
aggregate volume large len
trigger bursts volume sum > 50000
ask second find senders 2 2
ask late between large 4 9
ask bytes measure volume 0 99
ask busy fired bursts
ask all total len *
";

// The answers to all questions: live, and on the whole log.
#[derive(Drop)]
struct Found {
    live: Vec<Answer>,
    whole: Vec<Answer>,
}

// The rows of a source.
fn rows_of(alloc: Global, schema: &Schema, source: u64, count: u32) -> Result<Vec<Row>>
    ensures rows { IfOk result (λ rows. rows.items ≡ map (sent source) (range_with_len 0 count)) }
    ensures fit { IfOk result (λ rows. All (Fits schema.now) rows.items) }
{
    let mut rows = Vec::new(alloc);
    for k in 0..count {
        let time = Value::Num(100 * u64::from(k));
        let length = Value::Num(60 + 10 * u64::from(k));
        let row = Row::new(k, vec![in alloc; time, Value::Num(source), length]?);
        if !fits(schema, &row) {
            bail!("a row does not fit the schema");
        }
        rows.push(row)?;
    }
    Ok(rows)
}

// Both writers' passes, of which the list is empty then.
fn take_both(writers: &mut Vec<WriterPass>) -> (WriterPass, WriterPass)
    requires { length writers.old.items ≡ 2 }
    ensures both { writers.old.items ≡ result.0 ∷ result.1 ∷ [] }
    ensures none { writers.new.items ≡ [] }
{
    let Some(second) = writers.pop() else {
        unreachable!()
    };
    let Some(first) = writers.pop() else {
        unreachable!()
    };
    (first, second)
}

// Each writer appends its rows in a thread of its own.
fn append_both<R: Threads>(
    rt: &R,
    log: &MultiLog,
    left: &mut WriterPass,
    right: &mut WriterPass,
    first: &[Row],
    second: &[Row],
) -> (Result<(), AppendFault>, Result<(), AppendFault>)
    requires writers { IsWriter log.now 0 left.old × IsWriter log.now 1 right.old }
    requires fits { All (Fits log.now.shape.schema) first.now × All (Fits log.now.shape.schema) second.now }
    ensures first { AppendsRows log.now first.now left.old left.new result.0 }
    ensures second { AppendsRows log.now second.now right.old right.new result.1 }
{
    join_mut(
        rt,
        &mut || append_rows(log, left, first),
        &mut || append_rows(log, right, second),
    )
}

// Two threads append their rows, while a third asks all questions.
fn append_and_ask<R: Threads>(
    rt: &R,
    alloc: Global,
    opened: &mut Opened,
    first: &[Row],
    second: &[Row],
    asks: &[Ask],
) -> Result<Vec<Answer>>
    requires opened { IsOpened opened.old.log.shape opened.old × (opened.old.log.shape.writers ≡ 2) }
    requires fits { All (Fits opened.old.log.shape.schema) first.now × All (Fits opened.old.log.shape.schema) second.now }
    requires suit { All (Suits opened.old.log.shape) asks.now }
    ensures same { opened.new.log ≡ opened.old.log }
    ensures done { IfOk result (λ live. HasWritten asks.now first.now second.now opened.new live.items) }
{
    let (mut left, mut right) = take_both(&mut opened.writers);
    let mut reader = opened.log.fork(&mut opened.root);
    let log = &opened.log;
    let (live, appended) = join_mut(
        rt,
        &mut || ask_all(log, alloc, &mut reader, asks),
        &mut || append_both(rt, log, &mut left, &mut right, first, second),
    );
    opened.log.fold_back(&mut opened.root, reader);
    appended.0?;
    appended.1?;
    opened.writers.push(left)?;
    opened.writers.push(right)?;
    Ok(live?)
}

// The rows are appended by two threads, and the questions of the setup are asked live, and then of the whole log.
fn collect<R: Threads>(
    rt: &R,
    alloc: Global,
    setup: &Setup,
    first: &[Row],
    second: &[Row],
) -> Result<Found>
    requires fits { All (Fits setup.now.schema) first.now × All (Fits setup.now.schema) second.now }
    ensures { IfOk result (HasFound (shaped setup.now 4096 2 256) setup.now.asks first.now second.now) }
{
    let asks = setup.asks();
    let mut opened = open(alloc, setup, 4096, 2, 256)?;
    let live = append_and_ask(rt, alloc, &mut opened, first, second, asks)?;
    let Opened {
        log,
        mut root,
        writers,
    } = opened;
    join_writers(&log, &mut root, writers);
    let whole = ask_all(&log, alloc, &mut root, asks)?;
    Ok(Found { live, whole })
}

// What an answer comes to, in whatever order the records came.
fn figure(answer: &Answer) -> u64
    ensures { result ≡ figure_of answer.now.body }
{
    match &answer.body {
        Body::Places(places) => places.as_slice().len() as u64,
        Body::Total(quad) => quad.sum(),
        Body::Marks(marks) => marks.as_slice().len() as u64,
        Body::Tops(keys) => keys.as_slice().len() as u64,
        Body::Groups(groups) => groups.as_slice().len() as u64,
    }
}

fn main(rt: HostRuntime) -> Result<()> {
    let alloc = rt.alloc();
    let setup = parse_setup(alloc, SETUP.as_bytes())?;
    let first = rows_of(alloc, setup.schema(), 1, 500)?;
    let second = rows_of(alloc, setup.schema(), 2, 300)?;
    let found = collect(&rt, alloc, &setup, &first, &second)?;
    for (name, answer) in setup.ask_names().iter().zip(found.whole.iter()) {
        println!(rt; "{} {}", name.as_str(), figure(answer))?;
    }
    let mut pairs = found.live.iter().zip(found.whole.iter());
    let within = pairs.all(|(live, whole)| live.tail <= whole.tail);
    println!(rt; "live answers saw a beginning of this log: {}", within)?;
    Ok(())
}
