// What is asked of a log that is loaded.
ghost use Rattle.std.specs.Prelude.{◌≡◌, ◌<◌, ◌↔◌, IsTrue, IfOk, All};
ghost use Rattle.cf_plain.specs.Asks.{Suits, SuitsTrigger};
ghost use Rattle.cf_load.specs.Planned.{IsPlan, IsSamePlan, asks_of};

use cf_fold::Trigger;
use cf_plain::{Ask, copy_asks, suits};
use cf_row::Memory;
use cf_shape::Shape;
use std::alloc::Global;

/// What is asked of a log: every question and trigger once all is loaded, and the live ones beside each batch.
#[derive(Debug, Drop)]
pub struct LivePlan {
    pub asks: Vec<Ask>,
    pub triggers: Vec<Trigger>,
    /// The live questions by their places in `asks`, in the order in which a round asks them.
    pub lives: Vec<u8>,
    /// How many rounds the reader makes beside each batch, also if no question is live.
    pub rounds: u32,
}

fn suit_all(shape: &Shape, asks: &[Ask]) -> bool
    ensures { IsTrue result ↔ All (Suits shape.now) asks.now }
{
    asks.iter().all(|ask| suits(shape, ask))
}

fn fire_all(shape: &Shape, triggers: &[Trigger]) -> bool
    ensures { IsTrue result ↔ All (SuitsTrigger shape.now) triggers.now }
{
    triggers
        .iter()
        .all(|trigger| suits(shape, &Ask::Fired(*trigger)))
}

fn are_below(places: &[u8], count: usize) -> bool
    ensures { IsTrue result ↔ All (λ place. place < count) places.now }
{
    places.iter().all(|place| usize::from(*place) < count)
}

impl LivePlan {
    /// Whether it can be asked of a log of that shape: the questions and triggers suit it, and each live question is one of
    /// the questions.
    pub fn suits(&self, shape: &Shape) -> bool
        ensures { IsTrue result ↔ IsPlan shape.now self.now }
    {
        suit_all(shape, &self.asks)
            && fire_all(shape, &self.triggers)
            && are_below(&self.lives, self.asks.len())
    }

    // Whether the reader makes no round beside a batch.
    pub(crate) fn makes_no_round(&self) -> bool
        ensures { IsTrue result ↔ (self.now.rounds ≡ 0) }
    {
        self.rounds == 0
    }

    /// All that is asked at the end: each question, and then what each trigger finds.
    pub fn questions(&self, alloc: Global) -> Result<Vec<Ask>, Memory>
        ensures { IfOk result (λ asks. asks.items ≡ asks_of self.now) }
    {
        let mut asks = copy_asks(alloc, &self.asks)?;
        for trigger in &self.triggers {
            asks.push(Ask::Fired(*trigger))?;
        }
        Ok(asks)
    }

    /// One more of the same.
    pub(crate) fn copy(&self, alloc: Global) -> Result<LivePlan, Memory>
        ensures { IfOk result (IsSamePlan self.now) }
    {
        Ok(LivePlan {
            asks: copy_asks(alloc, &self.asks)?,
            triggers: self.triggers.to_vec(alloc)?,
            lives: self.lives.to_vec(alloc)?,
            rounds: self.rounds,
        })
    }
}
