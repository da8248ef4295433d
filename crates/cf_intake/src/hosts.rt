// The first rows of several hosts, each from a capture of its own.
ghost use Rattle.std.specs.Prelude.{◌≡◌, [], Some, All, IfOk, length, MatchResult};
ghost use Rattle.cf_row.specs.Row.{Fits};
ghost use Rattle.cf_intake.specs.Files.{HasLeft};
ghost use Rattle.cf_intake.specs.Causes.{HasHaltCause};
ghost use Rattle.cf_intake.specs.Parts.{AreFirstOf, attrs_in, captured_each, captures_by, rows_each};
ghost use Rattle.cf_intake.specs.Several.{names_in, AreHalted};

use crate::files::first_rows;
use crate::refusal::{Halt, Stop};
use crate::rows::{Captured, Manner};
use cf_outside::Shelf;
use std::alloc::Global;

/// The first rows of the captures in the files of these names, so many of each at most. They are read one after another, each to its end, and
/// all their records are judged.
pub fn read_hosts<F: Shelf>(
    alloc: Global,
    shelf: &mut F,
    names: &[&str],
    manner: Manner,
    most: usize,
) -> Result<Vec<Captured>, Halt>
    requires { HasLeft (F.files shelf.old) (F.rest shelf.old) (Some []) }
    ensures files { F.files shelf.new ≡ F.files shelf.old }
    ensures read { MatchResult result
        (λ hosts. AreFirstOf (captures_by manner.entry) (F.files shelf.old) (names_in names.now) (F.rest shelf.new) most (captured_each hosts.items))
        (AreHalted (captures_by manner.entry) (F.files shelf.old) (names_in names.now) (Some []) (F.rest shelf.new)) }
    ensures cause { HasHaltCause (F.faults shelf.old) (F.faults shelf.new) result }
    ensures fit { IfOk result (λ hosts. All (All (Fits (attrs_in manner.entry.format))) (rows_each hosts.items)) }
    ensures count { IfOk result (λ hosts. length hosts.items ≡ length names.now) }
{
    let mut hosts = Vec::new(alloc);
    for name in names {
        let host = first_rows(alloc, shelf, name, manner, most)?;
        match hosts.push(host) {
            Ok(()) => {}
            Err(_) => return Err(Halt::Stopped(Stop::Memory)),
        }
    }
    Ok(hosts)
}
