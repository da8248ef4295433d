// The rounds of a stream, as its records come.
ghost use Rattle.std.specs.Prelude.{◌≡◌, ◌<◌, ◌≤◌, ◌+◌, ◌-◌, ◌*◌, ◌^◌, ◌++◌, ◌&&◌, [], false, true, ℕ, length, IfOk, MatchResult, OnOk, string_bytes, if◌then◌else◌};
ghost use Rattle.cf_row.specs.Row.{Fits};
ghost use Rattle.cf_row.specs.Times.{time_of};
ghost use Rattle.cf_setup.specs.Setups.{shaped};
ghost use Rattle.cf_window.specs.Held.{count_of};
ghost use Rattle.cf_window.specs.Windows.{goes_in, is_small};
ghost use Rattle.cf_rounds.specs.Held.{HasAnswered, HasAsked, HasBeaten, HasMoved, IsAt, IsSetAs, begun_on};
ghost use Rattle.cf_rounds.specs.Lanes.{AreCounted, forgets as forgets_of, keeps};
ghost use Rattle.cf_rounds.specs.Lines.{end_text, is_beat as is_beat_of, is_due as is_due_of};
ghost use Rattle.cf_rounds.specs.Streams.{after_record, after_round, begun, round_text, view_of};

use crate::asks::push_end;
use crate::beat::push_beat;
use crate::fresh::push_news;
use crate::lanes::{forgets_untold, none_kept, take_row};
use crate::lives::push_lives;
use cf_row::{Memory, Row};
use cf_setup::Setup;
use cf_shape::Shape;
use cf_watch::Watched;
use cf_window::{Pushed, Window, nodes_needed};
use std::alloc::Global;
use std::marker::Model;
use std::thread::Threads;

/// What came of a record.
#[derive(Clone, Copy, Debug, PartialEq, Eq)]
pub enum Taken {
    /// It has come.
    Gone,
    /// Nothing has come: a round has to be made before the record, which comes by [`Rounds::take_waited`] then.
    Waits,
    /// Nothing has come: as many records have come as there may be.
    Full,
    /// Nothing has come: the record needs more nodes than a segment has.
    NoNodes,
}

/// How many records come between two askings of the live questions, and between two beats; never, if that is 0.
#[derive(Clone, Copy, Debug)]
pub struct Intervals {
    pub lives: u32,
    pub beat: u32,
}

/// The window of a stream, the buckets that are kept of each aggregate beside it, and when the live questions were asked and a beat
/// came. What a round writes goes behind a text of the caller. If memory runs out in a call, that text may end with a part of a line, and
/// rounds and text are to be dropped.
#[derive(Drop)]
pub struct Rounds {
    setup: Setup,
    window: Window,
    // of each lane of the setup
    kept: Vec<Watched>,
    every: u32,
    beat: u32,
    limit: u64,
    asked: u64,
    beaten: u64,
    // the time of the last record, in nanoseconds
    last: u64,
}

impl Model for Rounds {
    ghost use Rattle.cf_rounds.specs.Held.{RoundsValue, IsRounds, standing_in};

    ghost Value = { RoundsValue };

    ghost view = { λ r. record {
      terms = record { setup = r.setup; shape = r.window.shape; most = r.window.most; every = r.every; beat = r.beat };
      limit = r.limit;
      now = standing_in r.window r.kept.items r.asked r.beaten r.last;
      is_spent = r.window.is_spent;
    } };

    ghost invariant = { λ r. IsRounds r.setup r.window r.kept.items r.limit };
}

// So many records came since the last time, which is counted at all.
fn is_due(every: u32, asked: u64, to: u64) -> bool
    ensures { result ≡ is_due_of every asked to }
{
    every > 0 && to.saturating_sub(asked) >= u64::from(every)
}

// The same of a beat, for which one record is enough in the last round of all.
fn is_beat(is_last: bool, beat: u32, beaten: u64, to: u64) -> bool
    ensures { result ≡ is_beat_of is_last beat beaten to }
{
    let every = if is_last { beat.min(1) } else { beat };
    is_due(every, beaten, to)
}

// The record goes into the window, whatever has to be dropped for it.
fn move_on<R: Threads>(rt: &R, alloc: Global, window: &mut Window, row: &Row) -> Result<(), Memory>
    requires fits { Fits window.old.shape.schema row.now }
    requires small { is_small window.old.shape row.now ≡ true }
    requires room { count_of window.old < 2 ^ 64 - 1 }
    requires spent { window.old.is_spent ≡ true → goes_in window.old.shape window.old.segments row.now ≡ false }
    ensures moved { OnOk result (HasMoved window.old row.now window.new) }
    ensures set { (window.new.shape ≡ window.old.shape) × (window.new.most ≡ window.old.most) }
    ensures count { count_of window.old ≤ count_of window.new }
{
    if let Pushed::NeedsDrop = window.push(rt, alloc, row)? {
        window.replace_oldest(rt, alloc, row)?;
    }
    Ok(())
}

// All lanes keep the record, which is the last one then.
fn keep(
    alloc: Global,
    kept: &mut [Watched],
    last: &mut u64,
    shape: &Shape,
    row: &Row,
) -> Result<(), Memory>
    requires lanes { length kept.old ≡ length shape.now.lanes }
    requires fits { Fits shape.now.schema row.now }
    requires few { AreCounted (2 ^ 53 - 1) kept.old }
    ensures kept { OnOk result ((kept.new ≡ keeps shape.now kept.old row.now) × (last.new ≡ time_of shape.now.schema row.now)) }
    ensures long { length kept.new ≡ length kept.old }
    ensures counted { (count : ℕ) → AreCounted count kept.old → AreCounted (count + 1) kept.new }
{
    take_row(alloc, kept, shape, row)?;
    *last = row.time(shape.schema());
    Ok(())
}

impl Rounds {
    /// No record has come, and no round has been made. The window has at most so many segments of the shape, which is the setup's
    /// with one writer. There may be `limit` records.
    pub fn begin(
        alloc: Global,
        setup: Setup,
        shape: Shape,
        most: u32,
        intervals: Intervals,
        limit: u64,
    ) -> Result<Rounds, Memory>
        requires shaped { shape ≡ shaped setup shape.capacity 1 shape.nodes }
        requires some { 0 < most }
        requires bounded { most * shape.capacity ≤ 2 ^ 20 }
        requires few { limit < 2 ^ 53 }
        ensures begun { IfOk result (λ rounds. rounds ≡ begun_on (record { setup = setup; shape = shape; most = most; every = intervals.lives; beat = intervals.beat }) limit) }
        ensures at { IfOk result (λ rounds. IsAt rounds [] (begun rounds.terms)) }
    {
        let kept = none_kept(alloc, shape.lanes())?;
        Ok(Rounds {
            setup,
            window: Window::open(alloc, shape, most)?,
            kept,
            every: intervals.lives,
            beat: intervals.beat,
            limit,
            asked: 0,
            beaten: 0,
            last: 0,
        })
    }

    /// How many records have come, which is the number of the next one.
    pub fn count(&self) -> u64
        ensures { result ≡ self.now.now.count }
    {
        self.window.count()
    }

    /// The shape of each segment, whose schema the records have.
    pub fn shape(&self) -> &Shape
        ensures { result.now ≡ self.now.terms.shape }
    {
        self.window.shape()
    }

    /// Begins to open the segment that the window needs next, in a thread of its own, unless that has begun.
    pub fn prepare<R: Threads>(&mut self, rt: &R, alloc: Global)
        ensures { self.new ≡ self.old }
    {
        self.window.prepare(rt, alloc);
    }

    /// Waits for the thread that opens the window's next segment, if there is one, and lets that segment go.
    pub fn release<R: Threads>(&mut self, rt: &R)
        ensures { self.new ≡ self.old }
    {
        self.window.release(rt);
    }

    // The lines of the live questions, if they are due.
    fn ask_due(&mut self, alloc: Global, text: &mut String) -> Result<(), Memory>
        ensures set { IsSetAs self.old self.new }
        ensures asked { OnOk result (HasAsked self.old (string_bytes text.old) self.new (string_bytes text.new)) }
    {
        let to = self.window.count();
        if is_due(self.every, self.asked, to) {
            push_lives(alloc, text, &self.setup, &mut self.window, &self.kept)?;
            self.asked = to;
        }
        Ok(())
    }

    // A beat, if it is due.
    fn beat_due(&mut self, is_last: bool, text: &mut String) -> Result<(), Memory>
        ensures set { IsSetAs self.old self.new }
        ensures beaten { OnOk result (HasBeaten is_last self.old (string_bytes text.old) self.new (string_bytes text.new)) }
    {
        let to = self.window.count();
        if is_beat(is_last, self.beat, self.beaten, to) {
            let shape = self.window.shape();
            push_beat(text, &self.setup, shape, &self.kept, to, self.last)?;
            self.beaten = to;
        }
        Ok(())
    }

    /// A round, which may be the last of all: the crowded buckets and the marks that were not told, the live questions if they are due, and
    /// a beat if it is, or in the last round if a record came since the one before. A round that finds no record more than that before it writes nothing.
    pub fn round(&mut self, alloc: Global, is_last: bool, text: &mut String) -> Result<(), Memory>
        ensures set { IsSetAs self.old self.new }
        ensures round { OnOk result ((self.new ≡ record self.old { now = after_round self.old.terms is_last self.old.now })
            × (string_bytes text.new ≡ string_bytes text.old ++ round_text self.old.terms is_last self.old.now)) }
    {
        let to = self.window.count();
        push_news(alloc, text, &self.setup, to, &mut self.kept)?;
        self.ask_due(alloc, text)?;
        self.beat_due(is_last, text)
    }

    // Whether with the record, which a segment has nodes for, a bucket is forgotten that has a mark or is crowded, not yet told.
    fn forgets(&self, row: &Row) -> bool
        requires { Fits self.now.terms.shape.schema row.now }
        ensures { result ≡ (is_small self.now.terms.shape row.now && forgets_of self.now.terms.shape self.now.terms.setup.triggers self.now.now.kept row.now) }
    {
        let shape = self.window.shape();
        let triggers = self.setup.triggers();
        nodes_needed(shape, row) <= shape.nodes()
            && forgets_untold(&self.kept, shape, triggers, row)
    }

    /// A record comes, unless a round has to be made before it: a segment has to be dropped for it, or a bucket is forgotten with it that
    /// has a mark or is crowded, not yet told. Once a record has come for which there are no nodes, no other comes.
    pub fn take<R: Threads>(&mut self, rt: &R, alloc: Global, row: &Row) -> Result<Taken, Memory>
        requires fits { Fits self.old.terms.shape.schema row.now }
        requires open { self.old.is_spent ≡ false }
        ensures answer { MatchResult result (HasAnswered self.old row.now self.new) (λ _. IsSetAs self.old self.new) }
    {
        if self.window.count() >= self.limit {
            return Ok(Taken::Full);
        }
        if self.forgets(row) {
            return Ok(Taken::Waits);
        }
        match self.window.push(rt, alloc, row)? {
            Pushed::Full => Ok(Taken::Full),
            Pushed::NoNodes => Ok(Taken::NoNodes),
            Pushed::NeedsDrop => Ok(Taken::Waits),
            Pushed::Gone => {
                keep(
                    alloc,
                    &mut self.kept,
                    &mut self.last,
                    self.window.shape(),
                    row,
                )?;
                Ok(Taken::Gone)
            }
        }
    }

    /// The record comes for which [`Rounds::take`] has told that it waits, once a round is made.
    pub fn take_waited<R: Threads>(
        &mut self,
        rt: &R,
        alloc: Global,
        row: &Row,
    ) -> Result<(), Memory>
        requires fits { Fits self.old.terms.shape.schema row.now }
        requires small { is_small self.old.terms.shape row.now ≡ true }
        requires few { self.old.now.count < self.old.limit }
        requires spent { self.old.is_spent ≡ true → goes_in self.old.terms.shape self.old.now.segments row.now ≡ false }
        ensures set { IsSetAs self.old self.new }
        ensures gone { OnOk result (self.new ≡ record self.old { now = after_record self.old.terms self.old.now row.now; is_spent = false }) }
    {
        move_on(rt, alloc, &mut self.window, row)?;
        keep(
            alloc,
            &mut self.kept,
            &mut self.last,
            self.window.shape(),
            row,
        )
    }

    /// The end of the stream: a last round, and then how many records came, the number of the window's first, the answer of each question
    /// and the marks of each trigger.
    pub fn finish(&mut self, alloc: Global, text: &mut String) -> Result<(), Memory>
        ensures set { IsSetAs self.old self.new }
        ensures ended { OnOk result (string_bytes text.new ≡ string_bytes text.old ++ (round_text self.old.terms true self.old.now
            ++ end_text self.old.terms.shape self.old.terms.setup (view_of (after_round self.old.terms true self.old.now)))) }
    {
        self.round(alloc, true, text)?;
        push_end(alloc, text, &self.setup, &mut self.window, &self.kept)?;
        Ok(())
    }
}
