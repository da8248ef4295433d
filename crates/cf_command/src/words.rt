// What the words ask for.
ghost use Rattle.std.specs.Prelude.{◌≡◌, ◌≤◌, ◌*◌, IfOk, IfSome, option_map};
ghost use Rattle.cf_command.specs.Call.{call_said, call_in, call_by, is_given, schema_named, sizes_in, sizes_with, undivided_in, divided, bounded_window, window_in, texts, AreSizes, AreWindowSizes, IsInRange};
ghost use Rattle.cf_command.specs.Table.{says_of, synth_says_of, dump_says_of, snapshot_says_of, watch_says_of, long_says_of};
ghost use Rattle.cf_command.specs.Table.SaidValue.{run_said, synth_said, dump_said, snapshot_said, watch_said, long_said};

use crate::Memory;
use crate::number::number_between;
use crate::table::{
    DumpTexts, LongTexts, RunTexts, Said, SnapshotTexts, SynthTexts, WatchTexts, read_words,
};
use cf_row::PacketSchema;
use std::alloc::Global;

// The records that the segments of a log hold together at most.
const MOST_RECORDS: u32 = 1 << 20;

// Where a log has several segments, each ends where a batch of so many records does.
const BATCH: u32 = 4096;

/// The sizes of a log: how many writers load it, how many records each of its segments holds at most, how many nodes each
/// writer has in a segment, and how many segments it has at most.
#[derive(Clone, Copy, Debug, PartialEq, Eq)]
pub struct LogSizes {
    pub writers: u8,
    pub capacity: u32,
    pub nodes: u32,
    pub segments: u32,
}

impl LogSizes {
    /// How many records the log holds at most.
    pub fn most(self) -> u32
        requires { AreSizes self }
        ensures { result ≡ self.capacity * self.segments }
    {
        self.capacity * self.segments
    }
}

/// The sizes of a window: how many records each of its segments holds at most, how many segments it has at most, and how many nodes
/// each has.
#[derive(Clone, Copy, Debug, PartialEq, Eq)]
pub struct WindowSizes {
    pub capacity: u32,
    pub segments: u32,
    pub nodes: u32,
}

/// The command `run`: the names of the setup and of the capture, and the numbers of its options.
#[derive(Clone, Copy, Debug)]
pub struct RunCommand<'a> {
    pub setup: &'a str,
    pub capture: &'a str,
    pub sizes: LogSizes,
    /// How often each live question is asked beside a batch.
    pub rounds: u32,
    /// A capture that ends within a record has the records before it.
    pub truncated: bool,
}

/// The command `synth`: the name of the setup, the seed and the number of the packets, and the sizes of the log.
#[derive(Clone, Copy, Debug)]
pub struct SynthCommand<'a> {
    pub setup: &'a str,
    pub seed: u64,
    /// How many packets are drawn.
    pub count: u32,
    pub sizes: LogSizes,
}

/// The command `dump`: the name of the capture, and the schema of its rows.
#[derive(Clone, Copy, Debug)]
pub struct DumpCommand<'a> {
    pub capture: &'a str,
    pub schema: PacketSchema,
    /// A capture that ends within a record has the records before it.
    pub truncated: bool,
}

/// The command `snapshot`: the names of the setup and of a capture for each host, how many turns are taken before the freezing
/// and how many rows a host covers in one, and the sizes of each host's log.
#[derive(Debug, Drop)]
pub struct SnapshotCommand<'a> {
    pub setup: &'a str,
    pub captures: Vec<&'a str>,
    pub turns: u32,
    pub turn: u32,
    pub sizes: LogSizes,
    /// A capture that ends within a record has the records before it.
    pub truncated: bool,
}

/// The command `watch`: the names of the setup and of the capture, and the numbers of its options.
#[derive(Clone, Copy, Debug)]
pub struct WatchCommand<'a> {
    pub setup: &'a str,
    pub capture: &'a str,
    pub sizes: WindowSizes,
    /// Each live question is asked where so many records came since it was, and never where this is 0.
    pub every: u32,
    /// After so many records since the last beat a round ends with one; there is none if this is 0.
    pub beat: u32,
    /// A capture that ends within a record has the records before it.
    pub truncated: bool,
}

/// The command `run --long`: the names of the setup and of the captures, in the order of the words, and the sizes of the log, which
/// has one segment at a time.
#[derive(Debug, Drop)]
pub struct LongCommand<'a> {
    pub setup: &'a str,
    pub captures: Vec<&'a str>,
    pub sizes: LogSizes,
    /// A capture that ends within a record has the records before it.
    pub truncated: bool,
}

/// What the words of a command line ask for.
#[derive(Debug, Drop)]
pub enum Command<'a> {
    /// The report of a capture by a setup.
    Run(RunCommand<'a>),
    /// The answers of a setup over packets that are drawn from a seed.
    Synth(SynthCommand<'a>),
    /// The rows of a capture.
    Dump(DumpCommand<'a>),
    /// The answers of a setup at one cut of several hosts.
    Snapshot(SnapshotCommand<'a>),
    /// What the rounds of a capture say by a setup, while it comes.
    Watch(WatchCommand<'a>),
    /// The report of captures end to end by a setup, however long they are.
    Long(LongCommand<'a>),
}

// An option without a value is given.
fn is_given(text: &str) -> bool
    ensures { result ≡ is_given text.now }
{
    text == "true"
}

// The schema of packets of that name.
fn schema_of(name: &str) -> Option<PacketSchema>
    ensures { result ≡ schema_named name.now }
{
    match name {
        "packet" => Some(PacketSchema::Packet),
        "packet6" => Some(PacketSchema::Packet6),
        _ => None,
    }
}

// The sizes of a log of so many writers and one segment, where the texts write out the others, each in its range.
fn sizes_of_writers(
    alloc: Global,
    writers: u8,
    capacity: &str,
    nodes: &str,
) -> Result<Option<LogSizes>, Memory>
    requires { (1 ≤ writers) × (writers ≤ 15) }
    ensures sizes { IfOk result (λ found. found ≡ sizes_with writers capacity.now nodes.now) }
    ensures within { IfOk result (λ found. IfSome found AreSizes) }
    ensures kept { IfOk result (λ found. IfSome found (λ sizes. (sizes.writers ≡ writers) × (sizes.segments ≡ 1))) }
{
    let Some(capacity) = number_between(alloc, capacity, 1, 65536)? else {
        return Ok(None);
    };
    let Some(nodes) = number_between(alloc, nodes, 0, 65536)? else {
        return Ok(None);
    };
    Ok(Some(LogSizes {
        writers,
        capacity: capacity as u32,
        nodes: nodes as u32,
        segments: 1,
    }))
}

// The same where a text writes out the number of writers too.
fn undivided_sizes(
    alloc: Global,
    writers: &str,
    capacity: &str,
    nodes: &str,
) -> Result<Option<LogSizes>, Memory>
    ensures sizes { IfOk result (λ found. found ≡ undivided_in writers.now capacity.now nodes.now) }
    ensures within { IfOk result (λ found. IfSome found AreSizes) }
    ensures undivided { IfOk result (λ found. IfSome found (λ sizes. sizes.segments ≡ 1)) }
{
    let Some(count) = number_between(alloc, writers, 1, 15)? else {
        return Ok(None);
    };
    sizes_of_writers(alloc, count as u8, capacity, nodes)
}

// The same sizes with so many segments, where all together hold no more records than a log may, and several end where batches do.
fn divided(sizes: LogSizes, segments: u32) -> Option<LogSizes>
    requires sizes { AreSizes sizes }
    requires segments { (1 ≤ segments) × (segments ≤ 256) }
    ensures sizes { result ≡ divided sizes segments }
    ensures within { IfSome result AreSizes }
{
    if sizes.capacity * segments > MOST_RECORDS {
        return None;
    }
    if segments > 1 && sizes.capacity % BATCH != 0 {
        return None;
    }
    Some(LogSizes { segments, ..sizes })
}

// The sizes that the texts write out, where each is in its range.
fn sizes_of(
    alloc: Global,
    writers: &str,
    capacity: &str,
    nodes: &str,
    segments: &str,
) -> Result<Option<LogSizes>, Memory>
    ensures sizes { IfOk result (λ found. found ≡ sizes_in writers.now capacity.now nodes.now segments.now) }
    ensures within { IfOk result (λ found. IfSome found AreSizes) }
{
    let Some(writers) = number_between(alloc, writers, 1, 15)? else {
        return Ok(None);
    };
    let Some(sizes) = sizes_of_writers(alloc, writers as u8, capacity, nodes)? else {
        return Ok(None);
    };
    let Some(segments) = number_between(alloc, segments, 1, 256)? else {
        return Ok(None);
    };
    Ok(divided(sizes, segments as u32))
}

// The command of these texts, where each number is in its range.
fn run_from<'a>(alloc: Global, said: &RunTexts<'a>) -> Result<Option<Command<'a>>, Memory>
    ensures call { IfOk result (λ found. option_map call_by found ≡ call_in (run_said (says_of said.now))) }
    ensures within { IfOk result (λ found. IfSome found IsInRange) }
{
    let Some(sizes) = sizes_of(
        alloc,
        said.writers,
        said.capacity,
        said.nodes,
        said.segments,
    )?
    else {
        return Ok(None);
    };
    let Some(rounds) = number_between(alloc, said.live, 0, 64)? else {
        return Ok(None);
    };
    Ok(Some(Command::Run(RunCommand {
        setup: said.setup,
        capture: said.capture,
        sizes,
        rounds: rounds as u32,
        truncated: is_given(said.truncated),
    })))
}

// The command of these texts, where each number is in its range.
fn synth_from<'a>(alloc: Global, said: &SynthTexts<'a>) -> Result<Option<Command<'a>>, Memory>
    ensures call { IfOk result (λ found. option_map call_by found ≡ call_in (synth_said (synth_says_of said.now))) }
    ensures within { IfOk result (λ found. IfSome found IsInRange) }
{
    let Some(seed) = number_between(alloc, said.seed, 0, u64::MAX)? else {
        return Ok(None);
    };
    let Some(count) = number_between(alloc, said.count, 0, u64::from(MOST_RECORDS))? else {
        return Ok(None);
    };
    let Some(sizes) = sizes_of(
        alloc,
        said.writers,
        said.capacity,
        said.nodes,
        said.segments,
    )?
    else {
        return Ok(None);
    };
    Ok(Some(Command::Synth(SynthCommand {
        setup: said.setup,
        seed,
        count: count as u32,
        sizes,
    })))
}

// The command of these texts, where each number is in its range, and there are 1 to 16 captures.
fn snapshot_from<'a>(alloc: Global, said: SnapshotTexts<'a>) -> Result<Option<Command<'a>>, Memory>
    ensures call { IfOk result (λ found. option_map call_by found ≡ call_in (snapshot_said (snapshot_says_of said.entry))) }
    ensures within { IfOk result (λ found. IfSome found IsInRange) }
{
    let Some(turns) = number_between(alloc, said.after, 0, u64::from(u32::MAX))? else {
        return Ok(None);
    };
    let Some(turn) = number_between(alloc, said.turn, 1, 4096)? else {
        return Ok(None);
    };
    let Some(sizes) = sizes_of_writers(alloc, 1, said.capacity, said.nodes)? else {
        return Ok(None);
    };
    if !(1..=16).contains(&said.captures.len()) {
        return Ok(None);
    }
    Ok(Some(Command::Snapshot(SnapshotCommand {
        setup: said.setup,
        captures: said.captures,
        turns: turns as u32,
        turn: turn as u32,
        sizes,
        truncated: is_given(said.truncated),
    })))
}

// The command of these texts, where the schema is one of packets.
fn dump_from<'a>(said: &DumpTexts<'a>) -> Option<Command<'a>>
    ensures call { option_map call_by result ≡ call_in (dump_said (dump_says_of said.now)) }
    ensures within { IfSome result IsInRange }
{
    let capture = said.capture;
    let schema = schema_of(said.schema)?;
    Some(Command::Dump(DumpCommand {
        capture,
        schema,
        truncated: is_given(said.truncated),
    }))
}

// The sizes of a window, where they hold no more records together than a log may.
fn bounded_window(sizes: WindowSizes) -> Option<WindowSizes>
    requires capacity { (1 ≤ sizes.capacity) × (sizes.capacity ≤ 65536) }
    requires segments { (1 ≤ sizes.segments) × (sizes.segments ≤ 256) }
    requires nodes { sizes.nodes ≤ 65536 }
    ensures sizes { result ≡ bounded_window sizes }
    ensures within { IfSome result AreWindowSizes }
{
    if sizes.capacity * sizes.segments > MOST_RECORDS {
        return None;
    }
    Some(sizes)
}

// The sizes of a window that the texts write out, where each is in its range.
fn window_of(alloc: Global, texts: &WatchTexts) -> Result<Option<WindowSizes>, Memory>
    ensures sizes { IfOk result (λ found. found ≡ window_in texts.now.capacity.now texts.now.segments.now texts.now.nodes.now) }
    ensures within { IfOk result (λ found. IfSome found AreWindowSizes) }
{
    let Some(capacity) = number_between(alloc, texts.capacity, 1, 65536)? else {
        return Ok(None);
    };
    let Some(segments) = number_between(alloc, texts.segments, 1, 256)? else {
        return Ok(None);
    };
    let Some(nodes) = number_between(alloc, texts.nodes, 0, 65536)? else {
        return Ok(None);
    };
    Ok(bounded_window(WindowSizes {
        capacity: capacity as u32,
        segments: segments as u32,
        nodes: nodes as u32,
    }))
}

// The command of these texts, where each number is in its range.
fn watch_from<'a>(alloc: Global, texts: &WatchTexts<'a>) -> Result<Option<Command<'a>>, Memory>
    ensures call { IfOk result (λ found. option_map call_by found ≡ call_in (watch_said (watch_says_of texts.now))) }
    ensures within { IfOk result (λ found. IfSome found IsInRange) }
{
    let Some(sizes) = window_of(alloc, texts)? else {
        return Ok(None);
    };
    let Some(every) = number_between(alloc, texts.every, 0, u64::from(u32::MAX))? else {
        return Ok(None);
    };
    let Some(beat) = number_between(alloc, texts.beat, 0, u64::from(u32::MAX))? else {
        return Ok(None);
    };
    Ok(Some(Command::Watch(WatchCommand {
        setup: texts.setup,
        capture: texts.capture,
        sizes,
        every: every as u32,
        beat: beat as u32,
        truncated: is_given(texts.truncated),
    })))
}

// The command of these texts, where each number is in its range, and there are 1 to 4,096 captures.
fn long_from<'a>(alloc: Global, said: LongTexts<'a>) -> Result<Option<Command<'a>>, Memory>
    ensures call { IfOk result (λ found. option_map call_by found ≡ call_in (long_said (long_says_of said.entry))) }
    ensures within { IfOk result (λ found. IfSome found IsInRange) }
{
    let Some(sizes) = undivided_sizes(alloc, said.writers, said.capacity, said.nodes)? else {
        return Ok(None);
    };
    if !(1..=4096).contains(&said.captures.len()) {
        return Ok(None);
    }
    Ok(Some(Command::Long(LongCommand {
        setup: said.setup,
        captures: said.captures,
        sizes,
        truncated: is_given(said.truncated),
    })))
}

/// The command that the words are, or nothing where they are none. Each of its numbers is in its range.
#[tactic(auto, unfolding(crate::specs::Call::call_said))]
pub fn command_of<'a>(alloc: Global, words: &'a [&'a str]) -> Result<Option<Command<'a>>, Memory>
    ensures call { IfOk result (λ found. option_map call_by found ≡ call_said (texts words.entry.now)) }
    ensures within { IfOk result (λ found. IfSome found IsInRange) }
{
    let Some(said) = read_words(alloc, words)? else {
        return Ok(None);
    };
    match said {
        Said::Run(texts) => run_from(alloc, &texts),
        Said::Synth(texts) => synth_from(alloc, &texts),
        Said::Dump(texts) => Ok(dump_from(&texts)),
        Said::Snapshot(texts) => snapshot_from(alloc, texts),
        Said::Watch(texts) => watch_from(alloc, &texts),
        Said::Long(texts) => long_from(alloc, texts),
    }
}
