// `ask NAME`, and then a question.
ghost use Rattle.std.specs.Prelude.{◌≡◌, ◌<◌, ◌^◌, length, All, IfSome};
ghost use Rattle.std.specs.Option.{option_map};
ghost use Rattle.cf_setup.specs.Forms.{ask_form as ask_form_of, question_form as question_form_of, ranking_words, three_words, form_value, HasWords};

use crate::ask_buckets::Buckets;
use crate::form::StatementForm;
use crate::statement::{Question, question_of};
use crate::trigger::part_of;
use cf_fold::Part;
use cf_lines::{last_word, new_name, next_word};

/// The words of a lane and of the two ends of a range.
#[derive(Clone, Copy, Debug)]
pub(crate) struct Range<'a> {
    pub(crate) lane: &'a [u8],
    pub(crate) low: &'a [u8],
    pub(crate) high: &'a [u8],
}

/// The words of a tally and of how many of its keys are asked for, and the part that ranks them.
#[derive(Clone, Copy, Debug)]
pub(crate) struct Ranking<'a> {
    pub(crate) tally: &'a [u8],
    pub(crate) part: Part,
    pub(crate) count: &'a [u8],
}

// A lane and two ends, which nothing follows.
fn range_of(text: &[u8]) -> Option<Range>
    ensures { option_map (λ x. (x.lane.now, x.low.now, x.high.now)) result ≡ three_words text.now }
{
    let (lane, rest) = next_word(text)?;
    let (low, rest) = next_word(rest)?;
    let high = last_word(rest)?;
    Some(Range { lane, low, high })
}

// A tally, a part and a count, which nothing follows.
fn ranking_of(text: &[u8]) -> Option<Ranking>
    ensures { option_map (λ x. (x.tally.now, x.part, x.count.now)) result ≡ ranking_words text.now }
{
    let (tally, rest) = next_word(text)?;
    let (part, rest) = next_word(rest)?;
    let part = part_of(part)?;
    let count = last_word(rest)?;
    Some(Ranking { tally, part, count })
}

// What follows the kind of the question.
fn question_form<'a>(
    question: Question,
    name: &'a [u8],
    text: &'a [u8],
) -> Option<StatementForm<'a>>
    requires ascii { All (λ b. b < 128) name.now }
    requires size { length text.now < 2 ^ 32 }
    ensures form { option_map form_value result ≡ question_form_of question name.now text.now }
    ensures words { IfSome result (λ form. HasWords (form_value form)) }
{
    match question {
        Question::List => Some(StatementForm::List { name, expr: text }),
        Question::Find => Some(StatementForm::Find {
            name,
            over: range_of(text)?,
        }),
        Question::Between => Some(StatementForm::Buckets {
            name,
            what: Buckets::Between,
            over: range_of(text)?,
        }),
        Question::Measure => Some(StatementForm::Buckets {
            name,
            what: Buckets::Measure,
            over: range_of(text)?,
        }),
        Question::Fired => Some(StatementForm::Fired {
            name,
            trigger: last_word(text)?,
        }),
        Question::Top => Some(StatementForm::Top {
            name,
            by: ranking_of(text)?,
        }),
        Question::Groups => Some(StatementForm::Groups {
            name,
            lane: last_word(text)?,
        }),
        Question::Total => {
            let (attr, expr) = next_word(text)?;
            Some(StatementForm::Total { name, attr, expr })
        }
    }
}

pub(crate) fn ask_form<'a>(text: &'a [u8]) -> Option<StatementForm<'a>>
    requires { length text.now < 2 ^ 32 }
    ensures form { option_map form_value result ≡ ask_form_of text.now }
    ensures words { IfSome result (λ form. HasWords (form_value form)) }
{
    let (name, rest) = new_name(text)?;
    let (word, rest) = next_word(rest)?;
    let question = question_of(word)?;
    question_form(question, name, rest)
}
