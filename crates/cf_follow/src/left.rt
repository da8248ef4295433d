// What is left of the rows of a capture.
ghost use Rattle.std.specs.Prelude.{◌≡◌, ◌≤◌, ◌+◌, ◌*◌, ℕ, List, All, Err, IfOk, IfSome, length, option_map};
ghost use Rattle.cf_intake.specs.Causes.{HasStopCause};
ghost use Rattle.cf_intake.specs.Reads.{FailsToRead, MovesPiece, WhileReading, most_moved, view_by};
ghost use Rattle.cf_intake.specs.declared.refusal.Stop.TheVariants as stops;
ghost use Rattle.cf_project.specs.Keeping.{keep};
ghost use Rattle.cf_row.specs.Row.{Fits};
ghost use Rattle.cf_row.specs.Schema6.{attrs_by};
ghost use Rattle.cf_follow.specs.Followed.{HasNextLeft};

use cf_intake::{Reads, Stop};
use cf_outside::Shelf;
use cf_project::kept_rows;
use cf_row::{Row, Schema};
use std::alloc::Global;

/// Which attributes are kept of whole rows of a schema.
#[derive(Drop)]
pub struct Left {
    pub(crate) schema: Schema,
    // for each attribute of the schema, whether it is kept
    pub(crate) kept: Vec<bool>,
}

/// A capture that is read by single reads: what is left of its rows comes with them.
#[derive(Drop)]
pub struct LeftReads {
    pub(crate) reads: Reads,
    pub(crate) left: Left,
}

impl LeftReads {
    /// Reads once, and gives what is left of the rows of the records that the read ended, or nothing at the end. After an error there is
    /// nothing more to be read.
    pub(crate) fn next<F: Shelf>(
        &mut self,
        alloc: Global,
        shelf: &mut F,
    ) -> Result<Option<Vec<Row>>, Stop>
        requires packets { self.old.left.schema ≡ attrs_by self.old.reads.schema }
        requires marks { length self.old.left.kept.items ≡ length self.old.left.schema }
        ensures files { F.files shelf.new ≡ F.files shelf.old }
        ensures read { IfOk result (λ given. HasNextLeft self.old.left.kept.items self.old.reads self.new.reads (view_by (F.rest shelf.old) (F.moved shelf.old))
            (view_by (F.rest shelf.new) (F.moved shelf.new)) (option_map (λ rows. rows.items) given)) }
        ensures few { IfOk result (λ given. IfSome given (λ rows. WhileReading self.old.reads (16 * length rows.items ≤ most_moved self.old.reads + 15))) }
        ensures fit { IfOk result (λ given. IfSome given (λ rows. All (Fits (keep self.old.left.kept.items self.old.left.schema)) rows.items)) }
        ensures left { self.new.left ≡ self.old.left }
        ensures schema { self.new.reads.schema ≡ self.old.reads.schema }
        ensures stopped { result ≡ Err stops.Memory → WhileReading self.old.reads ((piece : List ℕ) × MovesPiece (most_moved self.old.reads) (view_by (F.rest shelf.old) (F.moved shelf.old))
            (view_by (F.rest shelf.new) (F.moved shelf.new)) piece) }
        ensures failed { result ≡ Err stops.ReadFault → FailsToRead (view_by (F.rest shelf.old) (F.moved shelf.old))
            (view_by (F.rest shelf.new) (F.moved shelf.new)) }
        ensures cause { HasStopCause (F.faults shelf.old) (F.faults shelf.new) result }
    {
        match self.reads.next(alloc, shelf)? {
            Some(rows) => {
                let Left { schema, kept } = &self.left;
                Ok(Some(kept_rows(alloc, kept, schema, rows)?))
            }
            None => Ok(None),
        }
    }
}
