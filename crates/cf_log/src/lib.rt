//! A shared log in one crate, for programs that count no steps: schemas, rows, shapes, passes, questions and setups, and the calls.
#![tactic(auto)]

mod appends;
mod asks;
mod counted;
mod passes;

pub use appends::{append, append_all, append_near, append_rows, settle};
pub use asks::{
    ask, ask_all, ask_seen, finding, finding_seen, groups, groups_seen, measure, row, tail,
};
pub use cf_append::{AppendFault, Leaves, Settled};
pub use cf_fold::{Part, Quad, Trigger, fires};
pub use cf_plain::{Answer, Ask, Body, Finding, Fired, Group, Groups, Marks, Places, suits};
pub use cf_row::{
    Atom, Attr, Conjunction, Entry, Expr, Kind, Memory, Name, Op, Row, Schema, SchemaFault, Value,
    fits, is_of_schema, packet_schema,
};
pub use cf_setup::{Setup, SetupFault, Source, parse_setup, shape_of};
pub use cf_shape::{Key, Lane, Shape, ShapeFault, belongs};
pub use cf_table::{Closed, MultiLog, Pass, ReaderPass, Root, Seal, WriterPass};
pub use passes::{Opened, join_writers, open};
