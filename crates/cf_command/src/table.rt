// The table of commands, as clap is told of it.
ghost use Rattle.std.specs.Prelude.{◌≡◌, IfOk, option_map, option_and_then, map, true, false, codes};
ghost use Rattle.clap.specs.Words.{app_of, rule_of, shape_of, subcommand_rows_of, with_rule, with_subcommand, first_of, all_of, found_of, rows_of};
ghost use Rattle.clap.specs.Faults.{is_simple_and_free};
ghost use Rattle.clap.specs.declared.builder.command.Command.TheViews.{out-Command as fields_of};
ghost use Rattle.cf_command.specs.Table.{bare_app, confluo_app, long_app, roomed_app, sized_app, truncatable_app, wide_app, windowed_app, needed, needed_flag, optional, flag, place, places, run_app, synth_app, dump_app, snapshot_app, watch_app, long_run_app, taken, said_of, plain_said_of, long_said_of, said_by, run_texts_of, says_of, synth_texts_of, synth_says_of, dump_texts_of, dump_says_of, snapshot_texts_of, snapshot_says_of, watch_texts_of, watch_says_of, long_texts_of, long_says_of};
ghost use Rattle.cf_command.specs.Table.SaidValue.{run_said, synth_said, dump_said, snapshot_said, watch_said, long_said};

use crate::Memory;
use clap::error::ErrorKind;
use clap::{Arg, ArgAction, ArgMatches, Command};
use std::alloc::{AllocError, Global};

fn needed_option<'a>(alloc: Global, id: &'a str) -> Arg<'a>
    ensures rule { rule_of result ≡ needed id.entry.now }
    ensures local { result.global ≡ false }
{
    Arg::new(alloc, id).long(id).required(true)
}

fn optional_option<'a>(alloc: Global, id: &'a str, value: &'a str) -> Arg<'a>
    ensures rule { rule_of result ≡ optional id.entry.now value.entry.now }
    ensures local { result.global ≡ false }
{
    Arg::new(alloc, id).long(id).default_value(value)
}

fn bare_option<'a>(alloc: Global, id: &'a str) -> Arg<'a>
    ensures rule { rule_of result ≡ flag id.entry.now }
    ensures local { result.global ≡ false }
{
    Arg::new(alloc, id).long(id).action(ArgAction::SetTrue)
}

fn needed_flag<'a>(alloc: Global, id: &'a str) -> Arg<'a>
    ensures rule { rule_of result ≡ needed_flag id.entry.now }
    ensures local { result.global ≡ false }
{
    bare_option(alloc, id).required(true)
}

fn own_word<'a>(alloc: Global, id: &'a str) -> Arg<'a>
    ensures rule { rule_of result ≡ place id.entry.now }
    ensures local { result.global ≡ false }
{
    Arg::new(alloc, id).required(true)
}

fn own_words<'a>(alloc: Global, id: &'a str) -> Arg<'a>
    ensures rule { rule_of result ≡ places id.entry.now }
    ensures local { result.global ≡ false }
{
    Arg::new(alloc, id).required(true).action(ArgAction::Append)
}

fn and<'a>(command: Command<'a>, arg: Arg<'a>) -> Result<Command<'a>, Memory>
    requires { (arg.global ≡ false) × ((fields_of command).has_globals ≡ false) }
    ensures rules { IfOk result (λ c. app_of c ≡ with_rule (app_of command.entry) (rule_of arg.entry)) }
    ensures local { IfOk result (λ c. (fields_of c).has_globals ≡ false) }
{
    command.arg(arg)
}

// With the options of a log's capacity and nodes.
fn roomed<'a>(alloc: Global, command: Command<'a>) -> Result<Command<'a>, Memory>
    requires local { (fields_of command).has_globals ≡ false }
    ensures rules { IfOk result (λ c. app_of c ≡ roomed_app (app_of command.entry)) }
    ensures local { IfOk result (λ c. (fields_of c).has_globals ≡ false) }
{
    let command = and(command, optional_option(alloc, "capacity", "65536"))?;
    and(command, optional_option(alloc, "nodes", "1024"))
}

// With the options of a log's sizes.
fn sized<'a>(alloc: Global, command: Command<'a>) -> Result<Command<'a>, Memory>
    requires local { (fields_of command).has_globals ≡ false }
    ensures rules { IfOk result (λ c. app_of c ≡ sized_app (app_of command.entry)) }
    ensures local { IfOk result (λ c. (fields_of c).has_globals ≡ false) }
{
    let command = and(command, optional_option(alloc, "writers", "4"))?;
    let command = roomed(alloc, command)?;
    and(command, optional_option(alloc, "segments", "1"))
}

// With the option that reads a capture as truncated.
fn truncatable<'a>(alloc: Global, command: Command<'a>) -> Result<Command<'a>, Memory>
    requires local { (fields_of command).has_globals ≡ false }
    ensures rules { IfOk result (λ c. app_of c ≡ truncatable_app (app_of command.entry)) }
    ensures local { IfOk result (λ c. (fields_of c).has_globals ≡ false) }
{
    and(command, bare_option(alloc, "truncated"))
}

// With the options of the nodes and the capacity of segments that are let go.
fn wide<'a>(alloc: Global, command: Command<'a>) -> Result<Command<'a>, Memory>
    requires local { (fields_of command).has_globals ≡ false }
    ensures rules { IfOk result (λ c. app_of c ≡ wide_app (app_of command.entry)) }
    ensures local { IfOk result (λ c. (fields_of c).has_globals ≡ false) }
{
    let command = and(command, optional_option(alloc, "nodes", "65536"))?;
    and(command, optional_option(alloc, "capacity", "65536"))
}

// With the options of a window's sizes.
fn windowed<'a>(alloc: Global, command: Command<'a>) -> Result<Command<'a>, Memory>
    requires local { (fields_of command).has_globals ≡ false }
    ensures rules { IfOk result (λ c. app_of c ≡ windowed_app (app_of command.entry)) }
    ensures local { IfOk result (λ c. (fields_of c).has_globals ≡ false) }
{
    let command = and(command, optional_option(alloc, "segments", "4"))?;
    wide(alloc, command)
}

fn run_command<'a>(alloc: Global) -> Result<Command<'a>, Memory>
    ensures rules { IfOk result (λ c. app_of c ≡ run_app) }
    ensures local { IfOk result (λ c. (fields_of c).has_globals ≡ false) }
{
    let command = Command::new(alloc, "run");
    let command = and(command, needed_option(alloc, "setup"))?;
    let command = sized(alloc, command)?;
    let command = and(command, optional_option(alloc, "live", "0"))?;
    let command = truncatable(alloc, command)?;
    and(command, own_word(alloc, "capture"))
}

fn synth_command<'a>(alloc: Global) -> Result<Command<'a>, Memory>
    ensures rules { IfOk result (λ c. app_of c ≡ synth_app) }
    ensures local { IfOk result (λ c. (fields_of c).has_globals ≡ false) }
{
    let command = Command::new(alloc, "synth");
    let command = and(command, needed_option(alloc, "setup"))?;
    let command = and(command, needed_option(alloc, "seed"))?;
    let command = and(command, needed_option(alloc, "count"))?;
    sized(alloc, command)
}

fn dump_command<'a>(alloc: Global) -> Result<Command<'a>, Memory>
    ensures rules { IfOk result (λ c. app_of c ≡ dump_app) }
    ensures local { IfOk result (λ c. (fields_of c).has_globals ≡ false) }
{
    let command = Command::new(alloc, "dump");
    let command = and(command, optional_option(alloc, "schema", "packet"))?;
    let command = truncatable(alloc, command)?;
    and(command, own_word(alloc, "capture"))
}

fn snapshot_command<'a>(alloc: Global) -> Result<Command<'a>, Memory>
    ensures rules { IfOk result (λ c. app_of c ≡ snapshot_app) }
    ensures local { IfOk result (λ c. (fields_of c).has_globals ≡ false) }
{
    let command = Command::new(alloc, "snapshot");
    let command = and(command, needed_option(alloc, "setup"))?;
    let command = and(command, needed_option(alloc, "after"))?;
    let command = and(command, optional_option(alloc, "turn", "1"))?;
    let command = roomed(alloc, command)?;
    let command = truncatable(alloc, command)?;
    and(command, own_words(alloc, "captures"))
}

fn watch_command<'a>(alloc: Global) -> Result<Command<'a>, Memory>
    ensures rules { IfOk result (λ c. app_of c ≡ watch_app) }
    ensures local { IfOk result (λ c. (fields_of c).has_globals ≡ false) }
{
    let command = Command::new(alloc, "watch");
    let command = and(command, needed_option(alloc, "setup"))?;
    let command = windowed(alloc, command)?;
    let command = and(command, optional_option(alloc, "every", "4096"))?;
    let command = and(command, optional_option(alloc, "beat", "0"))?;
    let command = truncatable(alloc, command)?;
    and(command, own_word(alloc, "capture"))
}

fn long_run_command<'a>(alloc: Global) -> Result<Command<'a>, Memory>
    ensures rules { IfOk result (λ c. app_of c ≡ long_run_app) }
    ensures local { IfOk result (λ c. (fields_of c).has_globals ≡ false) }
{
    let command = Command::new(alloc, "run");
    let command = and(command, needed_flag(alloc, "long"))?;
    let command = and(command, needed_option(alloc, "setup"))?;
    let command = and(command, optional_option(alloc, "writers", "4"))?;
    let command = wide(alloc, command)?;
    let command = truncatable(alloc, command)?;
    and(command, own_words(alloc, "captures"))
}

fn under<'a>(command: Command<'a>, sub: Command<'a>) -> Result<Command<'a>, Memory>
    requires { (fields_of sub).has_globals ≡ false }
    ensures { IfOk result (λ c. app_of c ≡ with_subcommand (app_of command.entry) (shape_of sub.entry)) }
{
    command.subcommand(sub)
}

fn bare_command<'a>(alloc: Global) -> Command<'a>
    ensures { app_of result ≡ bare_app }
{
    Command::new(alloc, "confluo")
        .no_binary_name(true)
        .subcommand_required(true)
}

#[tactic(auto, unfolding(crate::specs::Table::confluo_app))]
fn confluo_command<'a>(alloc: Global) -> Result<Command<'a>, Memory>
    ensures { IfOk result (λ c. app_of c ≡ confluo_app) }
{
    let command = under(bare_command(alloc), run_command(alloc)?)?;
    let command = under(command, synth_command(alloc)?)?;
    let command = under(command, dump_command(alloc)?)?;
    let command = under(command, snapshot_command(alloc)?)?;
    under(command, watch_command(alloc)?)
}

#[tactic(auto, unfolding(crate::specs::Table::long_app))]
fn long_command<'a>(alloc: Global) -> Result<Command<'a>, Memory>
    ensures { IfOk result (λ c. app_of c ≡ long_app) }
{
    under(bare_command(alloc), long_run_command(alloc)?)
}

// The command of a program that the words name, with its values, or nothing where clap refuses them.
fn parse<'a>(program: Command<'a>, words: &'a [&'a str]) -> Result<Option<ArgMatches<'a>>, Memory>
    requires { is_simple_and_free (app_of program) ≡ true }
    ensures { IfOk result (λ o. option_and_then subcommand_rows_of o ≡ taken (app_of program.entry) (map (λ w. w.now) words.entry.now)) }
{
    match program.try_get_matches_from(words) {
        Ok(matches) => Ok(Some(matches)),
        Err(error) => match error.kind() {
            ErrorKind::OutOfMemory => Err(AllocError),
            _ => Ok(None),
        },
    }
}

/// The texts of a `run` command.
#[derive(Drop)]
pub(crate) struct RunTexts<'a> {
    pub(crate) setup: &'a str,
    pub(crate) writers: &'a str,
    pub(crate) capacity: &'a str,
    pub(crate) nodes: &'a str,
    pub(crate) segments: &'a str,
    pub(crate) live: &'a str,
    /// `true` or `false`, as of each option without a value.
    pub(crate) truncated: &'a str,
    pub(crate) capture: &'a str,
}

fn text_of<'a>(matches: &ArgMatches<'a>, id: &str) -> Option<&'a str>
    ensures { option_map (λ s. s.now) result ≡ first_of id.now (rows_of (found_of matches.now)) }
{
    matches.get_str(id)
}

#[tactic(auto, unfolding(crate::specs::Table::run_texts_of))]
fn run_texts<'a>(matches: &ArgMatches<'a>) -> Option<RunTexts<'a>>
    ensures { option_map says_of result ≡ run_texts_of (rows_of (found_of matches.now)) }
{
    let setup = text_of(matches, "setup")?;
    let writers = text_of(matches, "writers")?;
    let capacity = text_of(matches, "capacity")?;
    let nodes = text_of(matches, "nodes")?;
    let segments = text_of(matches, "segments")?;
    let live = text_of(matches, "live")?;
    let truncated = text_of(matches, "truncated")?;
    let capture = text_of(matches, "capture")?;
    Some(RunTexts {
        setup,
        writers,
        capacity,
        nodes,
        segments,
        live,
        truncated,
        capture,
    })
}

/// The texts of a `synth` command.
#[derive(Drop)]
pub(crate) struct SynthTexts<'a> {
    pub(crate) setup: &'a str,
    pub(crate) seed: &'a str,
    pub(crate) count: &'a str,
    pub(crate) writers: &'a str,
    pub(crate) capacity: &'a str,
    pub(crate) nodes: &'a str,
    pub(crate) segments: &'a str,
}

#[tactic(auto, unfolding(crate::specs::Table::synth_texts_of))]
fn synth_texts<'a>(matches: &ArgMatches<'a>) -> Option<SynthTexts<'a>>
    ensures { option_map synth_says_of result ≡ synth_texts_of (rows_of (found_of matches.now)) }
{
    let setup = text_of(matches, "setup")?;
    let seed = text_of(matches, "seed")?;
    let count = text_of(matches, "count")?;
    let writers = text_of(matches, "writers")?;
    let capacity = text_of(matches, "capacity")?;
    let nodes = text_of(matches, "nodes")?;
    let segments = text_of(matches, "segments")?;
    Some(SynthTexts {
        setup,
        seed,
        count,
        writers,
        capacity,
        nodes,
        segments,
    })
}

/// The texts of a `dump` command.
#[derive(Drop)]
pub(crate) struct DumpTexts<'a> {
    pub(crate) schema: &'a str,
    pub(crate) truncated: &'a str,
    pub(crate) capture: &'a str,
}

#[tactic(auto, unfolding(crate::specs::Table::dump_texts_of))]
fn dump_texts<'a>(matches: &ArgMatches<'a>) -> Option<DumpTexts<'a>>
    ensures { option_map dump_says_of result ≡ dump_texts_of (rows_of (found_of matches.now)) }
{
    let schema = text_of(matches, "schema")?;
    let truncated = text_of(matches, "truncated")?;
    let capture = text_of(matches, "capture")?;
    Some(DumpTexts {
        schema,
        truncated,
        capture,
    })
}

/// The texts of a `snapshot` command.
#[derive(Drop)]
pub(crate) struct SnapshotTexts<'a> {
    pub(crate) setup: &'a str,
    pub(crate) after: &'a str,
    pub(crate) turn: &'a str,
    pub(crate) capacity: &'a str,
    pub(crate) nodes: &'a str,
    pub(crate) truncated: &'a str,
    pub(crate) captures: Vec<&'a str>,
}

// The same references.
fn copied<'a>(alloc: Global, texts: &[&'a str]) -> Result<Vec<&'a str>, Memory>
    ensures { IfOk result (λ copied. map (λ s. s.now) copied.items ≡ map (λ s. s.now) texts.now) }
{
    let mut copied = Vec::new(alloc);
    for text in texts {
        copied.push(*text)?;
    }
    Ok(copied)
}

fn texts_of<'a>(
    alloc: Global,
    matches: &ArgMatches<'a>,
    id: &str,
) -> Result<Option<Vec<&'a str>>, Memory>
    ensures { IfOk result (λ found. option_map (λ v. map (λ s. s.now) v.items) found ≡ all_of id.now (rows_of (found_of matches.now))) }
{
    match matches.get_strs(id) {
        Some(texts) => Ok(Some(copied(alloc, texts)?)),
        None => Ok(None),
    }
}

// With the captures that were found.
#[tactic(auto, unfolding(crate::specs::Table::snapshot_texts_of))]
fn snapshot_texts<'a>(
    matches: &ArgMatches<'a>,
    captures: Option<Vec<&'a str>>,
) -> Option<SnapshotTexts<'a>>
    requires { option_map (λ v. map (λ s. s.now) v.items) captures ≡ all_of (codes "captures") (rows_of (found_of matches.now)) }
    ensures { option_map snapshot_says_of result ≡ snapshot_texts_of (rows_of (found_of matches.now)) }
{
    let setup = text_of(matches, "setup")?;
    let after = text_of(matches, "after")?;
    let turn = text_of(matches, "turn")?;
    let capacity = text_of(matches, "capacity")?;
    let nodes = text_of(matches, "nodes")?;
    let truncated = text_of(matches, "truncated")?;
    let captures = captures?;
    Some(SnapshotTexts {
        setup,
        after,
        turn,
        capacity,
        nodes,
        truncated,
        captures,
    })
}

/// The texts of a `watch` command.
#[derive(Drop)]
pub(crate) struct WatchTexts<'a> {
    pub(crate) setup: &'a str,
    pub(crate) capacity: &'a str,
    pub(crate) segments: &'a str,
    pub(crate) nodes: &'a str,
    pub(crate) every: &'a str,
    pub(crate) beat: &'a str,
    pub(crate) truncated: &'a str,
    pub(crate) capture: &'a str,
}

#[tactic(auto, unfolding(crate::specs::Table::watch_texts_of))]
fn watch_texts<'a>(matches: &ArgMatches<'a>) -> Option<WatchTexts<'a>>
    ensures { option_map watch_says_of result ≡ watch_texts_of (rows_of (found_of matches.now)) }
{
    let setup = text_of(matches, "setup")?;
    let capacity = text_of(matches, "capacity")?;
    let segments = text_of(matches, "segments")?;
    let nodes = text_of(matches, "nodes")?;
    let every = text_of(matches, "every")?;
    let beat = text_of(matches, "beat")?;
    let truncated = text_of(matches, "truncated")?;
    let capture = text_of(matches, "capture")?;
    Some(WatchTexts {
        setup,
        capacity,
        segments,
        nodes,
        every,
        beat,
        truncated,
        capture,
    })
}

/// The texts of `run --long`.
#[derive(Drop)]
pub(crate) struct LongTexts<'a> {
    pub(crate) setup: &'a str,
    pub(crate) writers: &'a str,
    pub(crate) capacity: &'a str,
    pub(crate) nodes: &'a str,
    pub(crate) truncated: &'a str,
    pub(crate) captures: Vec<&'a str>,
}

// With the captures that were found.
#[tactic(auto, unfolding(crate::specs::Table::long_texts_of))]
fn long_texts<'a>(matches: &ArgMatches<'a>, captures: Option<Vec<&'a str>>) -> Option<LongTexts<'a>>
    requires { option_map (λ v. map (λ s. s.now) v.items) captures ≡ all_of (codes "captures") (rows_of (found_of matches.now)) }
    ensures { option_map long_says_of result ≡ long_texts_of (rows_of (found_of matches.now)) }
{
    let setup = text_of(matches, "setup")?;
    let writers = text_of(matches, "writers")?;
    let capacity = text_of(matches, "capacity")?;
    let nodes = text_of(matches, "nodes")?;
    let truncated = text_of(matches, "truncated")?;
    let captures = captures?;
    Some(LongTexts {
        setup,
        writers,
        capacity,
        nodes,
        truncated,
        captures,
    })
}

/// What the words of a command say.
#[derive(Drop)]
pub(crate) enum Said<'a> {
    Run(RunTexts<'a>),
    Synth(SynthTexts<'a>),
    Dump(DumpTexts<'a>),
    Snapshot(SnapshotTexts<'a>),
    Watch(WatchTexts<'a>),
    Long(LongTexts<'a>),
}

fn run_said_by<'a>(matches: &ArgMatches<'a>) -> Option<Said<'a>>
    ensures { option_map said_by result ≡ option_map run_said (run_texts_of (rows_of (found_of matches.now))) }
{
    Some(Said::Run(run_texts(matches)?))
}

fn synth_said_by<'a>(matches: &ArgMatches<'a>) -> Option<Said<'a>>
    ensures { option_map said_by result ≡ option_map synth_said (synth_texts_of (rows_of (found_of matches.now))) }
{
    Some(Said::Synth(synth_texts(matches)?))
}

fn dump_said_by<'a>(matches: &ArgMatches<'a>) -> Option<Said<'a>>
    ensures { option_map said_by result ≡ option_map dump_said (dump_texts_of (rows_of (found_of matches.now))) }
{
    Some(Said::Dump(dump_texts(matches)?))
}

fn watch_said_by<'a>(matches: &ArgMatches<'a>) -> Option<Said<'a>>
    ensures { option_map said_by result ≡ option_map watch_said (watch_texts_of (rows_of (found_of matches.now))) }
{
    Some(Said::Watch(watch_texts(matches)?))
}

fn snapshot_said_by<'a>(alloc: Global, matches: &ArgMatches<'a>) -> Result<Option<Said<'a>>, Memory>
    ensures { IfOk result (λ found. option_map said_by found ≡ option_map snapshot_said (snapshot_texts_of (rows_of (found_of matches.now)))) }
{
    let captures = texts_of(alloc, matches, "captures")?;
    Ok(snapshot_texts(matches, captures).map(Said::Snapshot))
}

fn long_said_by<'a>(alloc: Global, matches: &ArgMatches<'a>) -> Result<Option<Said<'a>>, Memory>
    ensures { IfOk result (λ found. option_map said_by found ≡ option_map long_said (long_texts_of (rows_of (found_of matches.now)))) }
{
    let captures = texts_of(alloc, matches, "captures")?;
    Ok(long_texts(matches, captures).map(Said::Long))
}

// What the words say by the table of all commands.
#[tactic(auto, unfolding(crate::specs::Table::plain_said_of))]
fn read_plain<'a>(alloc: Global, words: &'a [&'a str]) -> Result<Option<Said<'a>>, Memory>
    ensures { IfOk result (λ o. option_map said_by o ≡ plain_said_of (map (λ w. w.now) words.entry.now)) }
{
    let program = confluo_command(alloc)?;
    let Some(matches) = parse(program, words)? else {
        return Ok(None);
    };
    match matches.subcommand() {
        Some((name, inner)) => {
            if name == "run" {
                Ok(run_said_by(inner))
            } else if name == "synth" {
                Ok(synth_said_by(inner))
            } else if name == "dump" {
                Ok(dump_said_by(inner))
            } else if name == "snapshot" {
                snapshot_said_by(alloc, inner)
            } else if name == "watch" {
                Ok(watch_said_by(inner))
            } else {
                Ok(None)
            }
        }
        None => Ok(None),
    }
}

// What the words of `run --long` say.
#[tactic(auto, unfolding(crate::specs::Table::long_said_of))]
fn read_long<'a>(alloc: Global, words: &'a [&'a str]) -> Result<Option<Said<'a>>, Memory>
    ensures { IfOk result (λ o. option_map said_by o ≡ long_said_of (map (λ w. w.now) words.entry.now)) }
{
    let program = long_command(alloc)?;
    let Some(matches) = parse(program, words)? else {
        return Ok(None);
    };
    match matches.subcommand() {
        Some((_, inner)) => long_said_by(alloc, inner),
        None => Ok(None),
    }
}

/// What the words of a command say, or nothing where they are no command.
#[tactic(auto, unfolding(crate::specs::Table::said_of))]
pub(crate) fn read_words<'a>(
    alloc: Global,
    words: &'a [&'a str],
) -> Result<Option<Said<'a>>, Memory>
    ensures { IfOk result (λ o. option_map said_by o ≡ said_of (map (λ w. w.now) words.entry.now)) }
{
    match read_plain(alloc, words)? {
        Some(said) => Ok(Some(said)),
        None => read_long(alloc, words),
    }
}
