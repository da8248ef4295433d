// Questions are asked by a reader of a log.
ghost use Rattle.std.specs.Prelude.{◌≡◌, ◌<◌, [], ◌∷◌, ◌++◌, length, map, IfOk, IfErr, OnOk, MatchOption};
ghost use Rattle.std.specs.List.{flat_map};
ghost use Rattle.std.specs.Arc.{arc_value};
ghost use Rattle.cf_shape.specs.Lanes.{both_keys};
ghost use Rattle.cf_plain.specs.Asks.{Suits, rows_in};
ghost use Rattle.cf_plain.specs.Groups.{first_key, other_key, pair_of};
ghost use Rattle.cf_plain.specs.Segments.{finding_in};
ghost use Rattle.cf_table.specs.Moves.{IsReading};
ghost use Rattle.cf_store.specs.declared.refusals.AskRefusal.TheVariants.{Memory};
ghost use Rattle.cf_store.specs.Asks.{AnswersQuestion, AnswersSeen, AsksAt, AsksSeen, AsksTail, FindsGroups, IsMeasured, IsTold, ReadsRow, ShowsRowAt, TellsGroups, is_keyed as is_keyed_of, keys_words, mark_words as mark_words_of, group_words as group_words_of, groups_words, body_words as body_words_of, body_kind as body_kind_of};
ghost use Rattle.cf_store.specs.Reports.{HasWalked, Reports};

use crate::held::{Reader, Shared};
use crate::refusals::{AskRefusal, LaneRefusal, RowRefusal};
use crate::shown::{Head, Shown, ShownValue};
use crate::values::show_row;
use cf_fold::Quad;
use cf_log::{ask, ask_seen, finding_seen, groups_seen, row, tail};
use cf_plain::{Answer, Ask, Body, Finding, Fired, Group};
use cf_row::{Memory as NoMemory, Row};
use cf_shape::{Shape, keeps_apart, measures};
use cf_table::{Pass, ReaderPass};
use std::alloc::Global;

fn place_words(alloc: Global, places: &[u32]) -> Result<Vec<u64>, NoMemory>
    ensures { IfOk result (λ words. words.items ≡ places.now) }
{
    let mut words = Vec::with_capacity(alloc, places.len())?;
    for place in places {
        words.push(u64::from(*place))?;
    }
    Ok(words)
}

fn quad_words(alloc: Global, quad: Quad) -> Result<Vec<u64>, NoMemory>
    ensures { IfOk result (λ words. words.items ≡ quad.count ∷ quad.sum ∷ quad.least ∷ quad.greatest ∷ []) }
{
    let words = vec![in alloc; quad.count(), quad.sum(), quad.least(), quad.greatest()]?;
    Ok(words)
}

// Adds a bucket or a key, and then the value that keeps the rows of the bucket apart, if one does.
fn push_keys(words: &mut Vec<u64>, key: u64, by: Option<u64>) -> Result<(), NoMemory>
    ensures { OnOk result (words.new.items ≡ words.old.items ++ keys_words key by) }
{
    words.push(key)?;
    match by {
        None => Ok(()),
        Some(by) => Ok(words.push(by)?),
    }
}

fn push_mark(words: &mut Vec<u64>, mark: Fired) -> Result<(), NoMemory>
    ensures { OnOk result (words.new.items ≡ words.old.items ++ mark_words_of mark) }
{
    push_keys(words, mark.bucket, mark.key)?;
    Ok(words.push(mark.value)?)
}

fn mark_words(alloc: Global, marks: &[Fired]) -> Result<Vec<u64>, NoMemory>
    ensures { IfOk result (λ words. words.items ≡ flat_map mark_words_of marks.now) }
{
    let mut words = Vec::new(alloc);
    for mark in marks {
        push_mark(&mut words, *mark)?;
    }
    Ok(words)
}

fn body_words(alloc: Global, body: &Body) -> Result<Vec<u64>, NoMemory>
    ensures { IfOk result (λ words. words.items ≡ body_words_of body.now) }
{
    match body {
        Body::Places(places) => place_words(alloc, places.as_slice()),
        Body::Total(quad) => quad_words(alloc, *quad),
        Body::Marks(marks) => mark_words(alloc, marks.as_slice()),
        Body::Tops(tops) => mark_words(alloc, tops.as_slice()),
        Body::Groups(groups) => group_words(alloc, groups.as_slice()),
    }
}

fn body_kind(keyed: bool, body: &Body) -> u32
    ensures { result ≡ body_kind_of keyed body.now }
{
    match body {
        Body::Places(_) => 0,
        Body::Total(_) => 1,
        Body::Marks(_) => if keyed { 5 } else { 2 },
        Body::Tops(_) => 3,
        Body::Groups(_) => if keyed { 6 } else { 4 },
    }
}

// Whether the question is for marks or groups of a lane that keeps the rows of a bucket apart.
pub(crate) fn is_keyed(shape: &Shape, question: &Ask) -> bool
    requires { Suits shape.now question.now }
    ensures { result ≡ is_keyed_of shape.now question.now }
{
    match question {
        Ask::Fired(trigger) => keeps_apart(shape, trigger.agg),
        Ask::Groups(lane) => keeps_apart(shape, *lane),
        _ => false,
    }
}

/// An answer, and whether its question is for marks or groups of a lane that keeps the rows of a bucket apart.
#[derive(Drop)]
pub(crate) struct Told {
    pub(crate) answer: Answer,
    pub(crate) keyed: bool,
}

// The same of keys, which are those of the number that they make.
fn push_both_keys(words: &mut Vec<u64>, key: u64, by: Option<u64>) -> Result<(), NoMemory>
    ensures { OnOk result (words.new.items ≡ words.old.items ++ keys_words (first_key (both_keys key by)) (other_key (both_keys key by))) }
{
    match by {
        None => push_keys(words, key, None),
        Some(by) => push_keys(words, key, Some(by)),
    }
}

fn push_group(words: &mut Vec<u64>, group: Group) -> Result<(), NoMemory>
    ensures { OnOk result (words.new.items ≡ words.old.items ++ group_words_of (pair_of group)) }
{
    push_both_keys(words, group.key, group.by)?;
    words.push(group.quad.count())?;
    words.push(group.quad.sum())?;
    words.push(group.quad.least())?;
    Ok(words.push(group.quad.greatest())?)
}

pub(crate) fn group_words(alloc: Global, groups: &[Group]) -> Result<Vec<u64>, NoMemory>
    ensures { IfOk result (λ words. words.items ≡ groups_words (map pair_of groups.now)) }
{
    let mut words = Vec::new(alloc);
    for group in groups {
        push_group(&mut words, *group)?;
    }
    Ok(words)
}

// Asks the question of that number in the setup at the tail.
fn ask_of(
    shared: &Shared,
    alloc: Global,
    pass: &mut ReaderPass,
    number: u32,
) -> Result<Told, AskRefusal>
    requires { IsReading shared.now.log pass.old }
    ensures answers { AnswersQuestion shared.now number pass.old pass.new result }
    ensures aware { IsReading shared.now.log pass.new }
{
    let Some(question) = shared.setup.asks().get(number as usize) else {
        return Err(AskRefusal::NoQuestion);
    };
    let keyed = is_keyed(shared.log.shape(), question);
    match ask(&shared.log, alloc, pass, question) {
        Ok(answer) => Ok(Told { answer, keyed }),
        Err(_) => Err(AskRefusal::Memory),
    }
}

// Asks the question of that number in the setup of what the pass has seen.
fn ask_seen_of(
    shared: &Shared,
    alloc: Global,
    pass: &mut ReaderPass,
    number: u32,
) -> Result<Told, AskRefusal>
    requires { IsReading shared.now.log pass.old }
    ensures answers { AnswersSeen shared.now number pass.old pass.new result }
    ensures aware { IsReading shared.now.log pass.new }
{
    let asks = shared.setup.asks();
    let Some(question) = asks.get(number as usize) else {
        return Err(AskRefusal::NoQuestion);
    };
    let keyed = is_keyed(shared.log.shape(), question);
    match ask_seen(&shared.log, alloc, pass, question) {
        Ok(answer) => Ok(Told { answer, keyed }),
        Err(_) => Err(AskRefusal::Memory),
    }
}

// The lane of that number, if it is there, measures something, and does not keep the rows of a bucket apart.
pub(crate) fn measured(shared: &Shared, lane: u32) -> Option<u8>
    ensures { MatchOption result (IsMeasured shared.now lane → ⊥) (λ found. (found ≡ lane) × IsMeasured shared.now lane) }
{
    let shape = shared.log.shape();
    if lane as usize >= shape.lanes().len() {
        return None;
    }
    let lane = lane as u8;
    if !measures(shape, lane) || keeps_apart(shape, lane) {
        return None;
    }
    Some(lane)
}

// The words of the lane's groups in what the pass has seen.
fn groups_of(
    shared: &Shared,
    alloc: Global,
    pass: &mut ReaderPass,
    lane: u32,
) -> Result<Vec<u64>, LaneRefusal>
    requires { IsReading shared.now.log pass.old }
    ensures found { FindsGroups shared.now lane pass.old pass.new result }
    ensures aware { IsReading shared.now.log pass.new }
{
    let Some(lane) = measured(shared, lane) else {
        return Err(LaneRefusal::NoLane);
    };
    let Ok(groups) = groups_seen(&shared.log, alloc, pass, lane) else {
        return Err(LaneRefusal::Memory);
    };
    match group_words(alloc, &groups) {
        Ok(words) => Ok(words),
        Err(_) => Err(LaneRefusal::Memory),
    }
}

impl Reader {
    pub(crate) fn keep(&mut self, alloc: Global, told: &Told) -> Result<Head, AskRefusal>
        ensures same { (self.new.of ≡ self.old.of) × (self.new.pass ≡ self.old.pass) }
        ensures told { IfOk result (λ head. IsTold told.now head self.new.words.items) }
        ensures memory { IfErr result (λ refusal. (refusal ≡ Memory) × (self.new.words.items ≡ self.old.words.items)) }
    {
        let Ok(words) = body_words(alloc, &told.answer.body) else {
            return Err(AskRefusal::Memory);
        };
        let head = Head {
            tail: told.answer.tail,
            kind: body_kind(told.keyed, &told.answer.body),
            count: words.len() as u64,
        };
        self.words = words;
        Ok(head)
    }

    /// Asks the question of that number in the setup at the tail, and keeps the words of the answer.
    pub fn ask(&mut self, alloc: Global, number: u32) -> Result<Head, AskRefusal>
        ensures { AsksAt number self.old self.new result }
    {
        match ask_of(&self.of, alloc, &mut self.pass, number) {
            Ok(told) => self.keep(alloc, &told),
            Err(refusal) => Err(refusal),
        }
    }

    /// Asks the question of that number in the setup of what the reader has seen, and keeps the words of the answer.
    pub fn ask_seen(&mut self, alloc: Global, number: u32) -> Result<Head, AskRefusal>
        ensures { AsksSeen number self.old self.new result }
    {
        let told = ask_seen_of(&self.of, alloc, &mut self.pass, number)?;
        self.keep(alloc, &told)
    }

    // What the question finds in what the reader has seen, and how many records that are. It keeps its words.
    pub(crate) fn find(&mut self, alloc: Global, question: &Ask) -> Result<(u32, Finding), NoMemory>
        requires { Suits (arc_value self.old.of).log.shape question.now }
        ensures walked { HasWalked self.old self.new }
        ensures count { IfOk result (λ found. found.0 ≡ length (self.old.pass.view).seen) }
        ensures found { IfOk result (λ found. found.1 ≡ finding_in (arc_value self.old.of).log.shape question.now (rows_in (self.old.pass.view).seen)) }
    {
        let tail = self.pass.covered();
        let found = finding_seen(&self.of.log, alloc, &mut self.pass, question)?;
        Ok((tail, found))
    }

    /// Tells the groups of a lane in what the reader has seen, and keeps their words: of each group its key, and its quad. A lane that
    /// keeps the rows of a bucket apart is refused, as one that is not there.
    pub fn groups(&mut self, alloc: Global, lane: u32) -> Result<Head, LaneRefusal>
        ensures { TellsGroups lane self.old self.new result }
    {
        let tail = self.pass.covered();
        let words = groups_of(&self.of, alloc, &mut self.pass, lane)?;
        let count = words.len() as u64;
        self.words = words;
        Ok(Head {
            tail,
            kind: 4,
            count,
        })
    }

    /// The row at an offset that the reader has seen.
    pub fn row(&mut self, alloc: Global, offset: u32) -> Result<Row, RowRefusal>
        ensures { ReadsRow offset self.old self.new result }
    {
        if offset >= self.pass.covered() {
            return Err(RowRefusal::NoRow);
        }
        match row(&self.of.log, alloc, &mut self.pass, offset) {
            Ok(found) => Ok(found),
            Err(_) => Err(RowRefusal::Memory),
        }
    }

    /// Shows the row at an offset that the reader has seen: its number, and its values as far as there is room.
    pub fn show_row(
        &mut self,
        alloc: Global,
        offset: u32,
        out: &mut [ShownValue],
    ) -> Result<Shown, RowRefusal>
        ensures { ShowsRowAt offset self.old self.new out.old out.new result }
    {
        let row = self.row(alloc, offset)?;
        Ok(Shown {
            number: row.num(),
            count: show_row(self.of.log.shape().schema(), &row, out),
        })
    }

    /// The text of the report of what the reader has seen: how many records they are, what each question and trigger of the setup means on
    /// them, and the order in which their writers wrote them.
    pub fn report(&mut self, alloc: Global) -> Result<Vec<u8>, NoMemory>
        ensures { Reports self.old self.new result }
    {
        // A log takes at most 65,536 records, as its shape tells.
        let _shape = self.of.log.shape();
        self.report_with(alloc, &mut [])
    }

    /// How many records are covered.
    pub fn tail(&mut self) -> u32
        ensures { AsksTail self.old self.new result }
    {
        tail(&self.of.log, &mut self.pass)
    }

    /// The words of the last answer.
    pub fn words(&self) -> &[u64]
        ensures { result.now ≡ self.now.words.items }
    {
        self.words.as_slice()
    }
}
