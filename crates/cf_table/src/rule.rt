// The rule of the table, a pass as it steps, and what a step tells.
use atomic_table::{Join, Play, Seat, Shared, Split, TableRule};
use cf_shape::Shape;
use std::marker::{Brand, Model, PhantomData};

// What a pass holds and knows, to contracts. No value of it is made.
#[derive(Drop)]
pub(crate) struct View {}

impl Model for View {
    ghost use Rattle.cf_law.specs.Passes.{Pass};
    ghost use Rattle.cf_law.specs.Steps.{spent_pass};

    ghost Value = { Pass };

    ghost view = { λ _. spent_pass };
}

pub(crate) struct Law;

impl TableRule<(), View, Shape> for Law {
    ghost use Rattle.cf_table.specs.Rule.{IsLawfulState, root_pass};

    ghost holds = { IsLawfulState };

    ghost first = { root_pass };
}

pub(crate) type Words = Shared<(), View, Shape, Law>;

/// A pass as it steps. Contracts see its table, its number, how many nodes each writer has, and its view.
#[derive(Drop)]
pub struct Token {
    pub(crate) seat: Seat<(), View>,
    pub(crate) covered: u32,
    pub(crate) nodes: u32,
}

impl Model for Token {
    ghost use Rattle.std.specs.Prelude.{◌≡◌, [], length, false};
    ghost use Rattle.cf_table.specs.Values.{PassValue};

    ghost Value = { PassValue };

    ghost view = { λ t. record { table = t.seat.table_id; id = t.seat.id; nodes = t.nodes; view = t.seat.me.0 } };

    ghost invariant = { λ t. (t.seat.me.1 ≡ []) × (t.covered ≡ length t.seat.me.0.seen) × (t.seat.me.0.spent ≡ false) };
}

/// What a call gives its step.
pub trait Gives {
    ghost use Rattle.cf_table.specs.Rule.{StepGiven};

    ghost given: { StepGiven };
}

impl Gives for Brand {
    ghost use Rattle.cf_table.specs.Rule.{nothing_given};

    ghost given = { nothing_given };
}

// Any step.
pub(crate) struct Acts<N: Gives> {
    of: PhantomData<N>,
}

impl<N: Gives> Play<(), View> for Acts<N> {
    ghost use Rattle.cf_table.specs.Rule.{TellsAll};

    ghost then = { λ s m found n. TellsAll N.given m found n };
}

// A step that doesn't tell what it found.
pub(crate) struct Stores<N: Gives> {
    of: PhantomData<N>,
}

impl<N: Gives> Play<(), View> for Stores<N> {
    ghost use Rattle.cf_table.specs.Rule.{TellsSome};

    ghost then = { λ s m found n. TellsSome N.given m n };
}

/// What a split leaves, and what it hands on.
pub trait Parts {
    ghost use Rattle.cf_law.specs.Passes.{Pass};

    ghost stays: { Pass };

    ghost goes: { Pass };
}

impl Parts for Brand {
    ghost use Rattle.cf_law.specs.Steps.{spent_pass};

    ghost stays = { spent_pass };

    ghost goes = { spent_pass };
}

pub(crate) struct Hands<N: Parts> {
    of: PhantomData<N>,
}

impl<N: Parts> Split<View> for Hands<N> {
    ghost left = { λ v. N.stays };

    ghost right = { λ v. N.goes };
}

pub(crate) struct Comes;

impl Join<View> for Comes {
    ghost use Rattle.cf_law.specs.Steps.{joined_pass, spent_pass};

    ghost both = { joined_pass };

    ghost spent = { spent_pass };
}
