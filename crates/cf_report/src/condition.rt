// Whether answers are those of a setup's questions and triggers.
ghost use Rattle.std.specs.Prelude.{◌≡◌, ◌<◌, ◌↔◌, All, IsTrue, length, true};
ghost use Rattle.cf_report.specs.Answered.{is_body_of, ask_at, tolds_of, IsWithin, IsAnswering};

use cf_plain::{Answer, Ask, Body, Live, Loaded};
use cf_setup::Setup;

fn is_kind(ask: &Ask, body: &Body) -> bool
    ensures { IsTrue result ↔ (is_body_of ask.now body.now ≡ true) }
{
    match ask {
        Ask::List(_) => matches!(body, Body::Places(_)),
        Ask::Find(_, _, _) => matches!(body, Body::Places(_)),
        Ask::Between(_, _, _) => matches!(body, Body::Places(_)),
        Ask::Measure(_, _, _) => matches!(body, Body::Total(_)),
        Ask::Fired(_) => matches!(body, Body::Marks(_)),
        Ask::Top(_, _, _) => matches!(body, Body::Tops(_)),
        Ask::Groups(_) => matches!(body, Body::Groups(_)),
        Ask::Total(_, _) => matches!(body, Body::Total(_)),
    }
}

fn is_within(count: usize, body: &Body) -> bool
    ensures { IsTrue result ↔ IsWithin count body.now }
{
    match body {
        Body::Places(places) => places
            .as_slice()
            .iter()
            .all(|place| (*place as usize) < count),
        Body::Total(_) => true,
        Body::Marks(_) => true,
        Body::Tops(_) => true,
        Body::Groups(_) => true,
    }
}

fn are_of_kind(asks: &[Ask], finals: &[Answer]) -> bool
    requires { length finals.now ≡ length asks.now }
    ensures { IsTrue result ↔ All (λ told. is_body_of told.ask told.body ≡ true) (tolds_of asks.now finals.now) }
{
    for place in 0..asks.len() {
        if !is_kind(&asks[place], &finals[place].body) {
            return false;
        }
    }
    true
}

fn are_within(count: usize, finals: &[Answer]) -> bool
    ensures { IsTrue result ↔ All (λ answer. IsWithin count answer.body) finals.now }
{
    finals.iter().all(|answer| is_within(count, &answer.body))
}

fn lives_exist(asks: usize, lives: &[Live]) -> bool
    ensures { IsTrue result ↔ All (λ live. live.ask < asks) lives.now }
{
    lives.iter().all(|live| (live.ask as usize) < asks)
}

fn lives_are_of_kind(setup: &Setup, lives: &[Live]) -> bool
    requires { All (λ live. live.ask < length setup.now.asks) lives.now }
    ensures { IsTrue result ↔ All (λ live. is_body_of (ask_at setup.now live.ask) live.answer.body ≡ true) lives.now }
{
    let asks = setup.asks();
    for live in lives {
        if !is_kind(&asks[live.ask as usize], &live.answer.body) {
            return false;
        }
    }
    true
}

fn lives_are_within(count: usize, lives: &[Live]) -> bool
    ensures { IsTrue result ↔ All (λ live. IsWithin count live.answer.body) lives.now }
{
    lives.iter().all(|live| is_within(count, &live.answer.body))
}

/// Whether `report` takes the answers over a log of that many entries: there is one to each question and a list of marks to each
/// trigger, the live ones are to questions that exist, each body is of its question's kind, and its places are those of the entries.
pub fn is_answering(setup: &Setup, count: usize, loaded: &Loaded) -> bool
    ensures { IsTrue result ↔ IsAnswering setup.now count loaded.now }
{
    loaded.finals().len() == setup.asks().len()
        && loaded.alerts().len() == setup.triggers().len()
        && are_of_kind(setup.asks(), loaded.finals())
        && are_within(count, loaded.finals())
        && lives_exist(setup.asks().len(), loaded.lives())
        && lives_are_of_kind(setup, loaded.lives())
        && lives_are_within(count, loaded.lives())
}
