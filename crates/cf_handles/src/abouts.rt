// What a setup says of what it names.
ghost use Rattle.std.specs.Prelude.{◌≡◌};
ghost use Rattle.cf_handles.specs.Abouts.{about_of, ask_about as ask_about_of, kind_about as kind_about_of, lane_about as lane_about_of, op_number as op_number_of, part_number as part_number_of, trigger_about as trigger_about_of, nothing};

use cf_fold::{Part, Trigger};
use cf_plain::Ask;
use cf_row::{Kind, Op};
use cf_setup::Setup;
use cf_shape::{Key, Lane};

/// What a setup says of a thing that it names, as C lays it out. What its sort does not have is 0.
#[repr(C)]
#[derive(Clone, Copy)]
pub struct About {
    /// Of an attribute the bits of a number, or 0; of a lane 0 an index, 1 a filter, 2 an aggregate, 3 a tally, 4 an aggregate by
    /// a key; of a question 0 a list, 1 a find, 2 a between, 3 a measure, 4 a fired, 5 a top, 6 a total, 7 groups.
    pub kind: u32,
    /// The attribute of a lane's keys; the lane of a trigger or a question; the attribute of a total.
    pub of: u32,
    /// The part of a trigger, a fired or a top: 0 count, 1 sum, 2 least, 3 greatest.
    pub part: u32,
    /// The operator of a trigger or a fired: 0 ==, 1 !=, 2 <, 3 <=, 4 >, 5 >=.
    pub op: u32,
    /// The least of a range, or the number of a trigger or a fired.
    pub low: u64,
    /// The greatest of a range.
    pub high: u64,
    /// The bytes of an attribute's strings, the attribute that a lane measures, or the keys of a top.
    pub size: u32,
    pub reserved: u32,
}

const NOTHING: About = About {
    kind: 0,
    of: 0,
    part: 0,
    op: 0,
    low: 0,
    high: 0,
    size: 0,
    reserved: 0,
};

fn part_number(part: Part) -> u32
    ensures { result ≡ part_number_of part }
{
    match part {
        Part::Count => 0,
        Part::Sum => 1,
        Part::Least => 2,
        Part::Greatest => 3,
    }
}

fn op_number(op: Op) -> u32
    ensures { result ≡ op_number_of op }
{
    match op {
        Op::Eq => 0,
        Op::Ne => 1,
        Op::Lt => 2,
        Op::Le => 3,
        Op::Gt => 4,
        Op::Ge => 5,
        Op::Within => 6,
        Op::Outside => 7,
    }
}

fn kind_about(kind: Kind) -> About
    ensures { result ≡ kind_about_of kind }
{
    let (bits, size) = match kind {
        Kind::U8 => (8, 0),
        Kind::U16 => (16, 0),
        Kind::U32 => (32, 0),
        Kind::U64 => (64, 0),
        Kind::Bytes(size) => (0, u32::from(size)),
    };
    About {
        kind: bits,
        size,
        ..NOTHING
    }
}

fn lane_about(lane: &Lane) -> About
    ensures { result ≡ lane_about_of lane.now }
{
    let (kind, of, size) = match (lane.key, lane.measure) {
        (Key::Attr(attr), None) => (0, attr, 0),
        (Key::Bucket, None) => (1, 0, 0),
        (Key::Bucket, Some(measure)) => (2, 0, measure),
        (Key::Attr(attr), Some(measure)) => (3, attr, measure),
        (Key::BucketBy(attr), None) => (1, attr, 0),
        (Key::BucketBy(attr), Some(measure)) => (4, attr, measure),
    };
    About {
        kind,
        of: u32::from(of),
        size: u32::from(size),
        ..NOTHING
    }
}

fn trigger_about(kind: u32, trigger: Trigger) -> About
    ensures { result ≡ trigger_about_of kind trigger }
{
    About {
        kind,
        of: u32::from(trigger.agg),
        part: part_number(trigger.part),
        op: op_number(trigger.op),
        low: trigger.number,
        ..NOTHING
    }
}

fn range_about(kind: u32, lane: u8, low: u64, high: u64) -> About
    ensures { result ≡ record nothing { kind = kind; of = lane; low = low; high = high } }
{
    About {
        kind,
        of: u32::from(lane),
        low,
        high,
        ..NOTHING
    }
}

fn ask_about(ask: &Ask) -> About
    ensures { result ≡ ask_about_of ask.now }
{
    match ask {
        Ask::List(_) => NOTHING,
        Ask::Find(lane, low, high) => range_about(1, *lane, *low, *high),
        Ask::Between(lane, low, high) => range_about(2, *lane, *low, *high),
        Ask::Measure(lane, low, high) => range_about(3, *lane, *low, *high),
        Ask::Fired(trigger) => trigger_about(4, *trigger),
        Ask::Top(lane, part, count) => About {
            kind: 5,
            of: u32::from(*lane),
            part: part_number(*part),
            size: *count,
            ..NOTHING
        },
        Ask::Groups(lane) => range_about(7, *lane, 0, 0),
        Ask::Total(attr, _) => range_about(6, *attr, 0, 0),
    }
}

/// What the setup says of what it has of that sort at that number: 0 attributes, 1 lanes, 2 triggers, 3 questions.
pub(crate) fn about_in(setup: &Setup, sort: u32, number: u32) -> Option<About>
    ensures { result ≡ about_of setup.now sort number }
{
    let number = number as usize;
    match sort {
        0 => Some(kind_about(setup.schema().attrs().get(number)?.kind)),
        1 => Some(lane_about(setup.lanes().get(number)?)),
        2 => Some(trigger_about(0, *setup.triggers().get(number)?)),
        3 => Some(ask_about(setup.asks().get(number)?)),
        _ => None,
    }
}
