// The words that begin statements and questions.
ghost use Rattle.std.specs.Prelude.{◌≡◌};
ghost use Rattle.cf_setup.specs.Forms.{statement_named, question_named};

/// What a line states, by its first word.
#[derive(Clone, Copy, Debug, PartialEq, Eq)]
pub(crate) enum Statement {
    Schema,
    Width,
    Index,
    Filter,
    Aggregate,
    Tally,
    Trigger,
    Ask,
    Live,
}

/// What an `ask` asks.
#[derive(Clone, Copy, Debug, PartialEq, Eq)]
pub(crate) enum Question {
    List,
    Find,
    Between,
    Measure,
    Fired,
    Top,
    Groups,
    Total,
}

/// The statement that the word begins.
pub(crate) fn statement_of(word: &[u8]) -> Option<Statement>
    ensures { result ≡ statement_named word.now }
{
    if word == b"schema".as_slice() {
        return Some(Statement::Schema);
    }
    if word == b"width".as_slice() {
        return Some(Statement::Width);
    }
    if word == b"index".as_slice() {
        return Some(Statement::Index);
    }
    if word == b"filter".as_slice() {
        return Some(Statement::Filter);
    }
    if word == b"aggregate".as_slice() {
        return Some(Statement::Aggregate);
    }
    if word == b"tally".as_slice() {
        return Some(Statement::Tally);
    }
    if word == b"trigger".as_slice() {
        return Some(Statement::Trigger);
    }
    if word == b"ask".as_slice() {
        return Some(Statement::Ask);
    }
    if word == b"live".as_slice() {
        return Some(Statement::Live);
    }
    None
}

/// The kind of question that the word says.
pub(crate) fn question_of(word: &[u8]) -> Option<Question>
    ensures { result ≡ question_named word.now }
{
    if word == b"list".as_slice() {
        return Some(Question::List);
    }
    if word == b"find".as_slice() {
        return Some(Question::Find);
    }
    if word == b"between".as_slice() {
        return Some(Question::Between);
    }
    if word == b"measure".as_slice() {
        return Some(Question::Measure);
    }
    if word == b"fired".as_slice() {
        return Some(Question::Fired);
    }
    if word == b"top".as_slice() {
        return Some(Question::Top);
    }
    if word == b"groups".as_slice() {
        return Some(Question::Groups);
    }
    if word == b"total".as_slice() {
        return Some(Question::Total);
    }
    None
}
