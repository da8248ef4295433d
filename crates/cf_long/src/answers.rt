// The answers that findings tell.
ghost use Rattle.std.specs.Prelude.{◌≡◌, List, length, map, IfOk};
ghost use Rattle.cf_load.specs.Planned.{asks_of};
ghost use Rattle.cf_row.specs.Row.{RowValue};
ghost use Rattle.cf_shape.specs.Lanes.{ShapeValue};
ghost use Rattle.cf_report.specs.Report.{marks_of as marks_in};
ghost use Rattle.cf_long.specs.Answered.{AreAnswers};
ghost use Rattle.cf_long.specs.Found.{body_of_each, found_in};

use cf_load::LivePlan;
use cf_plain::{Ask, Body, Finding, Marks};
use cf_row::Memory;
use std::alloc::Global;

/// What is answered on all rows of a log: how many there are, each question's answer and each trigger's marks, in the setup's order.
#[derive(Debug, Drop)]
pub struct Answers {
    pub count: u32,
    pub finals: Vec<Body>,
    pub alerts: Vec<Marks>,
}

// The answers to questions of which each found one of these.
fn bodies_of(alloc: Global, asks: Vec<Ask>, found: Vec<Finding>) -> Result<Vec<Body>, Memory>
    requires each { length found.items ≡ length asks.items }
    ensures { IfOk result (λ bodies. bodies.items ≡ body_of_each asks.items found.items) }
{
    let mut bodies = Vec::with_capacity(alloc, asks.len())?;
    let mut rest = found.into_iter();
    for ask in asks {
        let Some(finding) = rest.next() else {
            unreachable!();
        };
        bodies.push(finding.body(alloc, &ask)?)?;
    }
    Ok(bodies)
}

// The marks of an answer.
fn marks_of(alloc: Global, body: Body) -> Marks
    ensures { result ≡ marks_in body }
{
    match body {
        Body::Marks(marks) => marks,
        _ => Marks::new(Vec::new(alloc)),
    }
}

// The marks of each answer.
fn marks_of_each(alloc: Global, bodies: Vec<Body>) -> Result<Vec<Marks>, Memory>
    ensures { IfOk result (λ all. all.items ≡ map marks_in bodies.items) }
{
    let mut all = Vec::with_capacity(alloc, bodies.len())?;
    for body in bodies {
        all.push(marks_of(alloc, body))?;
    }
    Ok(all)
}

/// The answers to all that a plan asks, by what each question and then each trigger found in so many rows.
pub(crate) fn answers_of(
    alloc: Global,
    plan: &LivePlan,
    count: u32,
    found: Vec<Finding>,
) -> Result<Answers, Memory>
    requires each { length found.items ≡ length (asks_of plan.now) }
    ensures { (shape : ShapeValue) (rows : List RowValue) → count ≡ length rows → found.items ≡ found_in shape (asks_of plan.now) rows
        → IfOk result (AreAnswers shape plan.now.asks.items plan.now.triggers.items rows) }
{
    let asks = plan.questions(alloc)?;
    let mut finals = bodies_of(alloc, asks, found)?;
    let fired = finals.split_off(plan.asks.len())?;
    let alerts = marks_of_each(alloc, fired)?;
    Ok(Answers {
        count,
        finals,
        alerts,
    })
}
