// Captures are read one after another into a log of any length.
ghost use Rattle.std.specs.Prelude.{◌≡◌, ◌+◌, ◌++◌, ◌≤◌, ◌^◌, ℕ, List, Option, [], All, Err, MatchResult, None, length, map};
ghost use Rattle.cf_outside.specs.Files.{File};
ghost use Rattle.cf_row.specs.Schema6.{attrs_by};
ghost use Rattle.cf_row.specs.Row.{Fits, RowValue};
ghost use Rattle.cf_project.specs.Projected.{row_kept};
ghost use Rattle.cf_setup.specs.Setups.{shaped};
ghost use Rattle.cf_intake.specs.Causes.{HasHaltCause};
ghost use Rattle.cf_intake.specs.Reads.{numbered_on};
ghost use Rattle.cf_intake.specs.Series.{IsSeriesAt, KeepsSeries};
ghost use Rattle.cf_intake.specs.declared.refusal.Halt.TheVariants.{Stopped};
ghost use Rattle.cf_intake.specs.declared.refusal.Stop.TheVariants as stops;
ghost use Rattle.cf_long.specs.Ends.{AreTaken, AreToldOf, GivesAhead, IsReadInto, IsUntold, ReadComesTo, ReadsComeTo};
ghost use Rattle.cf_long.specs.Kept.{IsKeptLong, IsLongFor, IsSomeKept, KeepsKept};
ghost use Rattle.cf_long.specs.Longs.{count_of, shape_in};

use crate::ahead::Ahead;
use crate::kept::KeptLong;
use crate::report::long_report;
use cf_fill::{Context, Unmade};
use cf_intake::{Halt, Refusal, Series, Stop};
use cf_outside::{Gate, Shelf};
use cf_row::Row;
use cf_setup::Setup;
use std::thread::Threads;

/// How captures end that are read into a log.
#[derive(Clone, Copy, Debug)]
pub(crate) enum End {
    /// All were read.
    Whole,
    /// The one at hand is refused.
    Refused(Refusal),
    /// There is one record more than can be numbered.
    Full,
}

// Takes what is left of the rows that came, as many as can be numbered. The answer is whether there are more.
fn take<R: Threads + Sync, G: Gate>(
    context: &Context<'_, R, G>,
    long: &mut KeptLong,
    mut left: Vec<Row>,
) -> Result<bool, Halt>
    requires long { IsSomeKept long.old }
    requires fit { All (Fits (shape_in long.old.long).schema) left.items }
    requires numbered { (before more : List RowValue) × IsKeptLong long.old (numbered_on 0 before)
        × (left.items ≡ map (row_kept long.old.kept) (numbered_on (length before) more)) }
    ensures keeps { KeepsKept long.old long.new }
    ensures taken { (before more : List RowValue) → IsKeptLong long.old (numbered_on 0 before)
        → left.items ≡ map (row_kept long.old.kept) (numbered_on (length before) more) → AreTaken long.new (before ++ more) result }
    ensures unfailed { result ≡ Err (Stopped stops.ReadFault) → ⊥ }
{
    let room = long.room() as usize;
    let full = left.len() > room;
    left.truncate(room);
    let nodes = long.nodes();
    match long.take_left(context, &mut left) {
        Ok(()) => Ok(full),
        Err(why) => Err(why.halt(nodes)),
    }
}

// Takes the last rows, behind which the captures end, or of which there are too many. The answer is how they end.
fn take_last<R: Threads + Sync, G: Gate>(
    context: &Context<'_, R, G>,
    long: &mut KeptLong,
    ahead: Ahead,
) -> Result<End, Halt>
    requires read { (series : Series) × (told : Option (List File)) × (now : Option (List ℕ)) × IsReadInto series told now long.old ahead }
    requires last { ahead.end ≡ None → 2 ^ 32 ≤ count_of long.old.long + length ahead.rows.items }
    ensures keeps { KeepsKept long.old long.new }
    ensures come { (series : Series) (told : Option (List File)) (now : Option (List ℕ)) → IsReadInto series told now long.old ahead
        → ReadsComeTo series told now long.new result }
    ensures unfailed { result ≡ Err (Stopped stops.ReadFault) → ⊥ }
{
    let Ahead { rows, end } = ahead;
    let full = take(context, long, rows)?;
    match end {
        Some(end) if !full => Ok(end),
        _ => Ok(End::Full),
    }
}

// What was read, once the rows before it are taken.
fn both(nodes: u32, taken: Result<(), Unmade>, ahead: Result<Ahead, Stop>) -> Result<Ahead, Halt>
    ensures { GivesAhead nodes taken ahead result }
{
    let ahead = ahead?;
    match taken {
        Ok(()) => Ok(ahead),
        Err(why) => Err(why.halt(nodes)),
    }
}

// Takes the rows that were read ahead, and reads the next ones meanwhile.
fn step<R: Threads + Sync, F: Shelf, G: Gate>(
    context: &Context<'_, R, G>,
    shelf: &mut F,
    series: &mut Series<'_>,
    long: &mut KeptLong,
    ahead: Ahead,
) -> Result<Ahead, Halt>
    requires read { IsReadInto series.old (F.files shelf.old) (F.rest shelf.old) long.old ahead }
    requires more { ahead.end ≡ None }
    requires room { count_of long.old.long + length ahead.rows.items + 1 ≤ 2 ^ 32 }
    ensures series { KeepsSeries series.old series.new }
    ensures keeps { KeepsKept long.old long.new }
    ensures files { F.files shelf.new ≡ F.files shelf.old }
    ensures comes { ReadComesTo series.new (F.files shelf.old) (F.rest shelf.new) long.new result }
    ensures cause { HasHaltCause (F.faults shelf.old) (F.faults shelf.new) result }
{
    let Ahead { mut rows, .. } = ahead;
    let nodes = long.nodes();
    let (taken, next) = long.take_beside(context, shelf, series, &mut rows);
    both(nodes, taken, next)
}

// Reads the captures, until they end or one of them is refused, or there are more records than can be numbered.
fn read_all<R: Threads + Sync, F: Shelf, G: Gate>(
    context: &Context<'_, R, G>,
    shelf: &mut F,
    series: &mut Series<'_>,
    long: &mut KeptLong,
) -> Result<End, Halt>
    requires begun { IsSeriesAt series.old (F.files shelf.old) (F.rest shelf.old) [] }
    requires long { IsKeptLong long.old [] }
    requires kind { long.old.shape.schema ≡ attrs_by series.old.schema }
    ensures series { KeepsSeries series.old series.new }
    ensures keeps { KeepsKept long.old long.new }
    ensures files { F.files shelf.new ≡ F.files shelf.old }
    ensures come { ReadsComeTo series.new (F.files shelf.old) (F.rest shelf.new) long.new result }
    ensures cause { HasHaltCause (F.faults shelf.old) (F.faults shelf.new) result }
{
    let mut ahead = long.read_ahead(context.alloc, shelf, series)?;
    for _made in 0..u64::MAX {
        if ahead.end.is_some() || ahead.rows.len() > long.room() as usize {
            return take_last(context, long, ahead);
        }
        ahead = step(context, shelf, series, long, ahead)?;
    }
    Err(Halt::Stopped(Stop::Memory))
}

/// Reads the captures one after another into the log, in which no row is yet, and gives the final part of the setup's report over all
/// their records, numbered from 0. There is none if a capture is missing or has a fault, then `place` captures are before it; or if there are
/// more than 2^32 - 1 records, or those in some segment need more nodes than a writer has in it; or if the shelf fails or memory runs out,
/// which comes after 2^64 - 1 reads too. The records before a missing or faulty capture, and its own before the fault, are loaded first.
pub fn series_report<R: Threads + Sync, F: Shelf, G: Gate>(
    context: &Context<'_, R, G>,
    shelf: &mut F,
    setup: &Setup,
    series: &mut Series<'_>,
    mut long: KeptLong,
) -> Result<Vec<u8>, Halt>
    requires begun { IsSeriesAt series.old (F.files shelf.old) (F.rest shelf.old) [] }
    requires long { (capacity writers nodes : ℕ) × IsLongFor setup.now capacity writers nodes long [] }
    requires kind { long.shape.schema ≡ attrs_by series.old.schema }
    ensures series { KeepsSeries series.old series.new }
    ensures files { F.files shelf.new ≡ F.files shelf.old }
    ensures told { (capacity writers nodes : ℕ) → IsLongFor setup.now capacity writers nodes long []
        → MatchResult result
        (λ text. AreToldOf series.new (F.files shelf.old) (F.rest shelf.new) setup.now (shaped setup.now capacity writers nodes) text.items)
        (IsUntold series.new (F.files shelf.old) (F.rest shelf.new) (shaped setup.now capacity writers nodes)) }
    ensures cause { HasHaltCause (F.faults shelf.old) (F.faults shelf.new) result }
{
    let nodes = long.nodes();
    let end = read_all(context, shelf, series, &mut long)?;
    // The rows that wait are loaded, however the captures end.
    let text = match long_report(context, setup, long) {
        Ok(text) => text,
        Err(why) => return Err(why.halt(nodes)),
    };
    match end {
        End::Whole => Ok(text),
        End::Refused(why) => Err(Halt::Refused(why)),
        End::Full => {
            let most = u64::from(u32::MAX);
            Err(Halt::Refused(Refusal::Full { most }))
        }
    }
}
