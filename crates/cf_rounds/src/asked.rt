// A question of the setup, and its answer in a round or in the final part.
ghost use Rattle.std.specs.Prelude.{◌≡◌, ◌-◌, ◌<◌, ◌^◌, ℕ, length, IfOk};
ghost use Rattle.cf_plain.specs.Asks.{Suits};
ghost use Rattle.cf_report.specs.Answered.{IsWithin, ask_at};
ghost use Rattle.cf_report.specs.Bodies.{word_of};
ghost use Rattle.cf_report.specs.Report.{ask_name};
ghost use Rattle.cf_setup.specs.Setups.{shaped};
ghost use Rattle.cf_window.specs.Held.{WindowValue};
ghost use Rattle.cf_rounds.specs.Held.{IsRounds, view_in};
ghost use Rattle.cf_rounds.specs.Lines.{body_on};

use crate::lanes::marks_of;
use cf_plain::{Ask, Body};
use cf_report::{name_at, word};
use cf_row::Memory;
use cf_setup::Setup;
use cf_watch::Watched;
use cf_window::Window;
use std::alloc::Global;

// The question at a place.
fn question(setup: &Setup, place: usize) -> &Ask
    requires { place < length setup.now.asks }
    ensures is { result.now ≡ ask_at setup.now place }
    ensures suits { (capacity nodes : ℕ) → Suits (shaped setup.now capacity 1 nodes) result.now }
{
    let asks = setup.asks();
    &asks[place]
}

/// The name of the question at a place.
pub(crate) fn question_name(setup: &Setup, place: usize) -> &str
    requires { place < length setup.now.asks }
    ensures { result.now ≡ ask_name setup.now place }
{
    name_at(setup.ask_names(), place)
}

/// The word of the question at a place.
pub(crate) fn question_word(setup: &Setup, place: usize) -> &str
    requires { place < length setup.now.asks }
    ensures { result.now ≡ word_of (ask_at setup.now place) }
{
    word(question(setup, place))
}

// What a question means: of a trigger its marks on what is kept, of another what it means on the window, whose places are counted from
// its first record.
fn answer_to(
    alloc: Global,
    window: &mut Window,
    kept: &[Watched],
    is_final: bool,
    ask: &Ask,
) -> Result<Body, Memory>
    requires suits { Suits window.old.shape ask.now }
    requires lanes { length kept.now ≡ length window.old.shape.lanes }
    ensures stays { window.new ≡ window.old }
    ensures answered { (last : ℕ) → IfOk result (λ body. body ≡ body_on window.old.shape (view_in window.old kept.now last) is_final ask.now) }
{
    match ask {
        Ask::Fired(trigger) => Ok(Body::Marks(marks_of(alloc, kept, trigger, is_final)?)),
        _ => window.answer(alloc, ask),
    }
}

/// The answer of the question at a place.
pub(crate) fn answer_at(
    alloc: Global,
    setup: &Setup,
    window: &mut Window,
    kept: &[Watched],
    is_final: bool,
    place: usize,
) -> Result<Body, Memory>
    requires exists { place < length setup.now.asks }
    requires rounds { (limit : ℕ) × IsRounds setup.now window.old kept.now limit }
    ensures stays { window.new ≡ window.old }
    ensures answered { (last : ℕ) → IfOk result (λ body. body ≡ body_on window.old.shape (view_in window.old kept.now last) is_final (ask_at setup.now place)) }
    ensures near { IfOk result (λ body. IsWithin (2 ^ 64 - window.old.from) body) }
{
    let _to = window.count();
    answer_to(alloc, window, kept, is_final, question(setup, place))
}
