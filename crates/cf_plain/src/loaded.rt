// The answers that a load gives.
use crate::{Answer, Marks};
use std::marker::Model;

/// The answer of a live question in a round of a batch.
#[derive(Debug, Drop)]
pub struct Live {
    /// The batch's number, from 0.
    pub batch: u32,
    /// The round's number in its batch, from 0.
    pub round: u32,
    /// The question's place among those of the setup, from 0.
    pub ask: u8,
    /// What it found then.
    pub answer: Answer,
}

/// The answers of a load: those of all questions on the whole log, in the order of the setup; the marks of all triggers there, in
/// the order of the setup; and the answers of the live questions, in the order in which they were asked.
#[derive(Debug, Drop)]
pub struct Loaded {
    finals: Vec<Answer>,
    alerts: Vec<Marks>,
    lives: Vec<Live>,
}

impl Model for Loaded {
    ghost use Rattle.cf_plain.specs.Answered.{LoadedValue};

    ghost Value = { LoadedValue };

    ghost view = { λ l. record { finals = l.finals.items; alerts = l.alerts.items; lives = l.lives.items } };
}

impl Loaded {
    ghost use Rattle.std.specs.Prelude.{◌≡◌};

    /// These answers. It takes no memory.
    pub fn new(finals: Vec<Answer>, alerts: Vec<Marks>, lives: Vec<Live>) -> Loaded
        ensures { result ≡ record { finals = finals.items; alerts = alerts.items; lives = lives.items } }
    {
        Loaded {
            finals,
            alerts,
            lives,
        }
    }

    /// Its three lists: the answers of all questions, the marks of all triggers, and the answers of the live questions.
    pub fn into_parts(self) -> (Vec<Answer>, Vec<Marks>, Vec<Live>)
        ensures finals { result.0.items ≡ self.finals }
        ensures alerts { result.1.items ≡ self.alerts }
        ensures lives { result.2.items ≡ self.lives }
    {
        (self.finals, self.alerts, self.lives)
    }

    /// The answers of all questions on the whole log.
    pub fn finals(&self) -> &[Answer]
        ensures { result.now ≡ self.now.finals }
    {
        self.finals.as_slice()
    }

    /// The marks of all triggers on the whole log.
    pub fn alerts(&self) -> &[Marks]
        ensures { result.now ≡ self.now.alerts }
    {
        self.alerts.as_slice()
    }

    /// The answers of the live questions.
    pub fn lives(&self) -> &[Live]
        ensures { result.now ≡ self.now.lives }
    {
        self.lives.as_slice()
    }
}
