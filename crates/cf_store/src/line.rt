// The question that a line says, behind the text of a setup.
ghost use Rattle.std.specs.Prelude.{◌≡◌, ◌++◌, ◌∷◌, IfOk, MatchOption, Ok};
ghost use Rattle.cf_setup.specs.SetupText.{SetupText};
ghost use Rattle.cf_table.specs.Moves.{IsReading};
ghost use Rattle.cf_store.specs.Asks.{AnswersLine, AsksLine, IsNewQuestion, ReadsLine, with_line as with_line_of};

use crate::held::{Reader, Shared};
use crate::reader::{Told, is_keyed};
use crate::refusals::LineRefusal;
use crate::shown::Head;
use cf_log::ask;
use cf_plain::{Ask, suits};
use cf_row::Memory;
use cf_setup::{Setup, SetupFault, parse_setup};
use cf_table::ReaderPass;
use std::alloc::Global;

// The text with one line more.
fn with_line(alloc: Global, text: &[u8], line: &[u8]) -> Result<Vec<u8>, Memory>
    ensures { IfOk result (λ all. all.items ≡ with_line_of text.now line.now) }
{
    let mut all = Vec::from_slice(alloc, text)?;
    all.push(10)?;
    all.extend_from_slice(line)?;
    Ok(all)
}

// The setup of the text with one line more.
fn longer_setup(alloc: Global, text: &[u8], line: &[u8]) -> Result<Setup, LineRefusal>
    ensures { ReadsLine text.now line.now result }
{
    let Ok(all) = with_line(alloc, text, line) else {
        return Err(LineRefusal::Memory);
    };
    match parse_setup(alloc, &all) {
        Ok(setup) => Ok(setup),
        Err(SetupFault::Bad { line, code }) => Err(LineRefusal::Setup(line, code)),
        Err(SetupFault::Memory) => Err(LineRefusal::Memory),
    }
}

// The one question that the longer setup has more, if it suits the log.
fn new_question<'a>(shared: &Shared, longer: &'a Setup) -> Option<&'a Ask>
    ensures { MatchOption result ((ask : _) → IsNewQuestion shared.now longer.now ask → ⊥) (λ ask. IsNewQuestion shared.now longer.now ask.now) }
{
    let count = shared.setup.asks().len();
    let asks = longer.asks();
    if asks.len() != count + 1 || !suits(shared.log.shape(), &asks[count]) {
        return None;
    }
    Some(&asks[count])
}

// Asks the question that the line says at the tail.
fn ask_line_of(
    shared: &Shared,
    alloc: Global,
    pass: &mut ReaderPass,
    line: &[u8],
) -> Result<Told, LineRefusal>
    requires { IsReading shared.now.log pass.old }
    ensures answers { AnswersLine shared.now line.now pass.old pass.new result }
    ensures aware { IsReading shared.now.log pass.new }
{
    if line.contains(&10) {
        return Err(LineRefusal::NoQuestion);
    }
    let longer = match longer_setup(alloc, shared.text.as_slice(), line) {
        Ok(longer) => longer,
        Err(refusal) => return Err(refusal),
    };
    let Some(question) = new_question(shared, &longer) else {
        return Err(LineRefusal::NoQuestion);
    };
    let keyed = is_keyed(shared.log.shape(), question);
    match ask(&shared.log, alloc, pass, question) {
        Ok(answer) => Ok(Told { answer, keyed }),
        Err(_) => Err(LineRefusal::Memory),
    }
}

impl Reader {
    /// Asks the question that the line says, behind the text of the log's setup, at the tail, and keeps the words of the answer.
    pub fn ask_line(&mut self, alloc: Global, line: &[u8]) -> Result<Head, LineRefusal>
        ensures { AsksLine line.now self.old self.new result }
    {
        let told = match ask_line_of(&self.of, alloc, &mut self.pass, line) {
            Ok(told) => told,
            Err(refusal) => return Err(refusal),
        };
        match self.keep(alloc, &told) {
            Ok(head) => Ok(head),
            Err(_) => Err(LineRefusal::Memory),
        }
    }
}
