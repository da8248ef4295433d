// What questions find in all entries, and the answers that this tells: the questions are asked in threads of their own, and lists and
// totals are split among more.
ghost use Rattle.std.specs.Prelude.{◌≡◌, ◌+◌, ◌<◌, ◌≤◌, ℕ, All, List, Ok, map, length, IfOk, slice_index_or};
ghost use Rattle.std.specs.List.{AllZip, flat_map};
ghost use Rattle.std.specs.Thread.{IsSync};
ghost use Rattle.cf_row.specs.declared.row.Entry.{Entry};
ghost use Rattle.cf_shape.specs.Lanes.{ShapeValue};
ghost use Rattle.cf_plain.specs.Asks.{Suits};
ghost use Rattle.cf_plain.specs.Answered.{answer_on};
ghost use Rattle.cf_query.specs.Walking.{AsksOne, AsksBucket};
ghost use Rattle.cf_load.specs.Costs.{CountLoads, bucket_steps_in, key_steps_in};
ghost use Rattle.cf_load.specs.Planned.{IsMarks, IsPlan, as_marks, asks_of, body_of, finding_on, marks_on};
ghost use Rattle.cf_load.specs.Priors.{HasFound};
ghost use Rattle.cf_load.specs.Readers.{AreReaders, CanBeAsked, CanScan, IsFoundBy, IsQuestion, answer_by, finding_by, seen_by};
ghost use Rattle.cf_scan.specs.Parts.{entries_in};
ghost use Rattle.cf_segments.specs.Segments.{KeepsAll, entries_of};

use crate::prior::find_behind;
use crate::{LivePlan, Segments};
use cf_plain::{Answer, Ask, Body, Finding, Live, Loaded, Marks};
use cf_query::goes_over_all;
use cf_row::Memory;
use cf_scan::{Part, scan_parts};
use cf_shape::Shape;
use cf_table::{MultiLog, ReaderPass, Steps};
use std::alloc::Global;
use std::marker::Brand;
use std::sync::ledger::{Blank, Ledger};
use std::thread::{Threads, map_vec};

// A question, and the passes by which it is asked.
#[derive(Drop)]
enum Question {
    // It walks a lane, by a pass for each segment.
    Walk(Ask, Vec<ReaderPass>),
    // It goes over all entries, by a pass for each part of them.
    Scan(Ask, Vec<Part>),
}

// What a question found in some entries, and how many these are.
#[derive(Drop)]
struct Found {
    ask: Ask,
    tail: u32,
    finding: Finding,
}

impl Found {
    // The answer that it tells.
    fn answer(self, alloc: Global) -> Result<Answer, Memory>
        ensures { (shape : ShapeValue) (entries : List Entry) → HasFound shape self.ask entries self.tail self.finding
            → IfOk result (λ answer. answer ≡ answer_on shape entries self.ask) }
    {
        let body = self.finding.body(alloc, &self.ask)?;
        Ok(Answer {
            tail: self.tail,
            body,
        })
    }
}

// What the question finds in all that the passes have seen, each in its log, and how many entries that is.
fn find_all<L: Ledger>(
    shape: &Shape,
    logs: &[&MultiLog],
    alloc: Global,
    readers: &mut [ReaderPass],
    ask: &Ask,
    steps: &mut Steps<L>,
) -> Result<(u32, Finding), Memory>
    requires suits { Suits shape.now ask.now }
    requires readers { AreReaders shape.now logs.now readers.old }
    ensures found { IfOk result (λ found. HasFound shape.now ask.now (flat_map seen_by readers.old) found.0 found.1) }
    ensures steps { AsksOne ask.now → IfOk result (λ _. steps.new + length readers.old ≤ steps.old + key_steps_in shape.now ask.now readers.old) }
    ensures bucket { AsksBucket ask.now → IfOk result (λ _. steps.new + length readers.old ≤ steps.old + bucket_steps_in shape.now ask.now readers.old) }
    ensures loads { CountLoads readers.old readers.new steps.old steps.new }
{
    let _shape = shape;
    let mut found = (0, Finding::nothing(alloc, ask));
    let mut place = 0;
    for reader in readers.iter_mut() {
        let log = logs[place];
        found = find_behind(log, alloc, reader, ask, found, steps)?;
        place += 1;
    }
    Ok(found)
}

// The same of a question that walks a lane. Nobody reads how many steps it made.
fn find_walked<L: Ledger>(
    shape: &Shape,
    logs: &[&MultiLog],
    alloc: Global,
    ask: &Ask,
    readers: Vec<ReaderPass>,
    blank: Blank,
) -> Result<(u32, Finding), Memory>
    requires suits { Suits shape.now ask.now }
    requires readers { AreReaders shape.now logs.now readers.items }
    requires blank { (blank.name ≡ L.name) × (blank.parts ≡ L.parts) × (0 < L.parts) }
    ensures { IfOk result (λ found. HasFound shape.now ask.now (flat_map seen_by readers.items) found.0 found.1) }
{
    let mut steps = Steps::<L>::new(blank);
    let mut readers = readers;
    find_all(shape, logs, alloc, readers.as_mut_slice(), ask, &mut steps)
}

// The same of a question that goes over all entries.
fn find_scanned<R: Threads + Sync>(
    rt: &R,
    shape: &Shape,
    logs: &[&MultiLog],
    alloc: Global,
    ask: &Ask,
    parts: Vec<Part>,
) -> Result<(u32, Finding), Memory>
    requires can { CanScan shape.now logs.now ask.now parts.items }
    ensures { IfOk result (λ found. HasFound shape.now ask.now (flat_map entries_in parts.items) found.0 found.1) }
{
    scan_parts(rt, alloc, shape, logs, ask, parts)
}

// What the question finds by its passes. One that goes over all entries is split among threads.
fn find_one<R: Threads + Sync>(
    rt: &R,
    shape: &Shape,
    logs: &[&MultiLog],
    alloc: Global,
    question: Question,
) -> Result<Found, Memory>
    requires can { CanBeAsked shape.now logs.now question }
    ensures { IfOk result (IsFoundBy shape.now question) }
{
    match question {
        Question::Walk(ask, readers) => {
            let (tail, finding) = find_walked::<Brand>(
                shape,
                logs,
                alloc,
                &ask,
                readers,
                Blank::new(1),
            )?;
            Ok(Found { ask, tail, finding })
        }
        Question::Scan(ask, parts) => {
            let (tail, finding) = find_scanned(rt, shape, logs, alloc, &ask, parts)?;
            Ok(Found { ask, tail, finding })
        }
    }
}

// The question's answer.
fn ask_one<R: Threads + Sync>(
    rt: &R,
    shape: &Shape,
    logs: &[&MultiLog],
    alloc: Global,
    question: Question,
) -> Result<Answer, Memory>
    requires can { CanBeAsked shape.now logs.now question }
    ensures { IfOk result (λ answer. answer ≡ answer_by shape.now question) }
{
    let found = find_one(rt, shape, logs, alloc, question)?;
    found.answer(alloc)
}

// What the question finds, and nothing else.
fn finding_of<R: Threads + Sync>(
    rt: &R,
    shape: &Shape,
    logs: &[&MultiLog],
    alloc: Global,
    question: Question,
) -> Result<Finding, Memory>
    requires can { CanBeAsked shape.now logs.now question }
    ensures { IfOk result (λ finding. finding ≡ finding_by shape.now question) }
{
    let found = find_one(rt, shape, logs, alloc, question)?;
    Ok(found.finding)
}

// Asks each question in a thread of its own where one can be made. One that goes over all entries starts more.
fn ask_each<R: Threads + Sync>(
    rt: &R,
    shape: &Shape,
    logs: &[&MultiLog],
    alloc: Global,
    questions: Vec<Question>,
) -> Result<Vec<Result<Answer, Memory>>, Memory>
    requires can { All (CanBeAsked shape.now logs.now) questions.items }
    ensures long { IfOk result (λ answers. length answers.items ≡ length questions.items) }
    ensures each { IfOk result (λ answers. (k : ℕ) (one : _) (question : _) → k < length questions.items
        → IfOk (slice_index_or answers.items k one) (λ answer. answer ≡ answer_by shape.now (slice_index_or questions.items k question))) }
{
    map_vec(
        rt,
        questions,
        &|question: Question| -> Result<Answer, Memory>
            requires { IsSync R.row × CanBeAsked shape.now logs.now question }
            ensures { IfOk result (λ answer. answer ≡ answer_by shape.entry.now question) }
        { ask_one(rt, shape, logs, alloc, question) },
    )
}

// The same of what each question finds.
fn find_each<R: Threads + Sync>(
    rt: &R,
    shape: &Shape,
    logs: &[&MultiLog],
    alloc: Global,
    questions: Vec<Question>,
) -> Result<Vec<Result<Finding, Memory>>, Memory>
    requires can { All (CanBeAsked shape.now logs.now) questions.items }
    ensures long { IfOk result (λ findings. length findings.items ≡ length questions.items) }
    ensures each { IfOk result (λ findings. (k : ℕ) (one : _) (question : _) → k < length questions.items
        → IfOk (slice_index_or findings.items k one) (λ finding. finding ≡ finding_by shape.now (slice_index_or questions.items k question))) }
{
    map_vec(
        rt,
        questions,
        &|question: Question| -> Result<Finding, Memory>
            requires { IsSync R.row × CanBeAsked shape.now logs.now question }
            ensures { IfOk result (λ finding. finding ≡ finding_by shape.entry.now question) }
        { finding_of(rt, shape, logs, alloc, question) },
    )
}

// The answers, where there are all.
fn all_given(alloc: Global, answers: Vec<Result<Answer, Memory>>) -> Result<Vec<Answer>, Memory>
    ensures { IfOk result (λ given. answers.items ≡ map (λ answer. Ok answer) given.items) }
{
    let mut given = Vec::with_capacity(alloc, answers.len())?;
    for answer in answers {
        given.push(answer?)?;
    }
    Ok(given)
}

// What was found, where all is.
fn all_found(alloc: Global, findings: Vec<Result<Finding, Memory>>) -> Result<Vec<Finding>, Memory>
    ensures { IfOk result (λ found. findings.items ≡ map (λ finding. Ok finding) found.items) }
{
    let mut found = Vec::with_capacity(alloc, findings.len())?;
    for finding in findings {
        found.push(finding?)?;
    }
    Ok(found)
}

// The question with passes of its own.
fn question_of<L: Ledger>(
    segments: &mut Segments,
    alloc: Global,
    ask: Ask,
    steps: &mut Steps<L>,
) -> Result<Question, Memory>
    ensures keeps { KeepsAll segments.old segments.new }
    ensures is { IfOk result (IsQuestion segments.old ask) }
{
    if goes_over_all(&ask) {
        let parts = segments.parts(alloc, steps)?;
        return Ok(Question::Scan(ask, parts));
    }
    let readers = segments.readers(alloc, steps)?;
    Ok(Question::Walk(ask, readers))
}

// The questions, each with passes of its own.
fn questions_of<L: Ledger>(
    segments: &mut Segments,
    alloc: Global,
    asks: Vec<Ask>,
    blank: Blank,
) -> Result<Vec<Question>, Memory>
    requires blank { (blank.name ≡ L.name) × (blank.parts ≡ L.parts) × (0 < L.parts) }
    ensures keeps { KeepsAll segments.old segments.new }
    ensures are { IfOk result (λ questions. AllZip (IsQuestion segments.old) asks.items questions.items) }
{
    let mut steps = Steps::<L>::new(blank);
    let mut questions = Vec::with_capacity(alloc, asks.len())?;
    for ask in asks {
        let question = question_of(segments, alloc, ask, &mut steps)?;
        questions.push(question)?;
    }
    Ok(questions)
}

// The questions' answers on all entries.
fn answers_to<R: Threads + Sync>(
    rt: &R,
    segments: &mut Segments,
    alloc: Global,
    asks: Vec<Ask>,
) -> Result<Vec<Answer>, Memory>
    requires suit { All (Suits segments.old.shape) asks.items }
    ensures keeps { KeepsAll segments.old segments.new }
    ensures answers { IfOk result (λ answers. answers.items ≡ map (answer_on segments.old.shape (entries_of segments.old)) asks.items) }
{
    let questions = questions_of::<Brand>(segments, alloc, asks, Blank::new(1))?;
    let logs = segments.logs(alloc)?;
    let answers = ask_each(rt, segments.shape(), logs.as_slice(), alloc, questions)?;
    all_given(alloc, answers)
}

// What the questions find in all entries.
fn findings_of<R: Threads + Sync>(
    rt: &R,
    segments: &mut Segments,
    alloc: Global,
    asks: Vec<Ask>,
) -> Result<Vec<Finding>, Memory>
    requires suit { All (Suits segments.old.shape) asks.items }
    ensures keeps { KeepsAll segments.old segments.new }
    ensures found { IfOk result (λ found. found.items ≡ map (finding_on segments.old.shape (entries_of segments.old)) asks.items) }
{
    let questions = questions_of::<Brand>(segments, alloc, asks, Blank::new(1))?;
    let logs = segments.logs(alloc)?;
    let findings = find_each(rt, segments.shape(), logs.as_slice(), alloc, questions)?;
    all_found(alloc, findings)
}

// What all questions and then all triggers find in all entries.
pub(crate) fn findings_on_all<R: Threads + Sync>(
    rt: &R,
    segments: &mut Segments,
    alloc: Global,
    plan: &LivePlan,
) -> Result<Vec<Finding>, Memory>
    requires plan { IsPlan segments.old.shape plan.now }
    ensures keeps { KeepsAll segments.old segments.new }
    ensures found { IfOk result (λ found. found.items ≡ map (finding_on segments.old.shape (entries_of segments.old)) (asks_of plan.now)) }
{
    let asks = plan.questions(alloc)?;
    findings_of(rt, segments, alloc, asks)
}

// The marks of triggers, from the answers about them.
fn marks_in(alloc: Global, answers: Vec<Answer>) -> Result<Vec<Marks>, Memory>
    requires marks { All IsMarks answers.items }
    ensures { IfOk result (λ all. map body_of answers.items ≡ map as_marks all.items) }
{
    let mut all = Vec::with_capacity(alloc, answers.len())?;
    for answer in answers {
        match answer.body {
            Body::Marks(marks) => all.push(marks)?,
            Body::Places(_) => unreachable!(),
            Body::Total(_) => unreachable!(),
            Body::Tops(_) => unreachable!(),
            Body::Groups(_) => unreachable!(),
        }
    }
    Ok(all)
}

// The answers of all questions and triggers on all entries, with the live ones that came before.
pub(crate) fn answers_on_all<R: Threads + Sync>(
    rt: &R,
    segments: &mut Segments,
    alloc: Global,
    plan: &LivePlan,
    lives: Vec<Live>,
) -> Result<Loaded, Memory>
    requires plan { IsPlan segments.old.shape plan.now }
    ensures keeps { KeepsAll segments.old segments.new }
    ensures finals { IfOk result (λ loaded. loaded.finals ≡ map (answer_on segments.old.shape (entries_of segments.old)) plan.now.asks.items) }
    ensures alerts { IfOk result (λ loaded. loaded.alerts ≡ map (marks_on segments.old.shape (entries_of segments.old)) plan.now.triggers.items) }
    ensures lives { IfOk result (λ loaded. loaded.lives ≡ lives.items) }
{
    let asks = plan.questions(alloc)?;
    let mut finals = answers_to(rt, segments, alloc, asks)?;
    let fired = finals.split_off(plan.asks.len())?;
    let alerts = marks_in(alloc, fired)?;
    Ok(Loaded::new(finals, alerts, lives))
}
