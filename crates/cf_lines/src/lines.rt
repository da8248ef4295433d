// Lines, and the words of a line.
ghost use Rattle.std.specs.Prelude.{◌≡◌, ℕ, List, ◌≤◌, ◌<◌, ◌∷◌, length, true, All, IfSome};
ghost use Rattle.std.specs.Option.{option_map, option_copied};
ghost use Rattle.std.specs.Str.Lines.{strip_carriage_return};
ghost use Rattle.cf_lines.specs.Lines.{lines_of, is_silent as is_silent_of, word_at, is_blank as is_blank_of, next_word as next_word_of, last_word as last_word_of, is_name as is_name_of, new_name as new_name_of};

use cf_filter::{Class, are_all, unspaced};

// Without a carriage return at the end.
fn strip_return(line: &[u8]) -> &[u8]
    ensures line { result.now ≡ strip_carriage_return line.now }
    ensures short { length result.now ≤ length line.now }
{
    let len = line.len();
    if len > 0 && line[len - 1] == b'\r' {
        return line.split_at(len - 1).0;
    }
    line
}

/// The first line, and what follows its end.
#[tactic(auto, using(crate::proofs::LineLaws::last_line, crate::proofs::LineLaws::ended_line))]
pub fn first_line(bytes: &[u8]) -> (&[u8], &[u8])
    requires { 0 < length bytes.now }
    ensures line { lines_of bytes.now ≡ result.0.now ∷ lines_of result.1.now }
    ensures less { length result.1.now < length bytes.now }
    ensures short { length result.0.now ≤ length bytes.now }
{
    let (piece, tail) = bytes.split_at(Class::Except(b'\n').run_len(bytes));
    if tail.is_empty() {
        return (piece, tail);
    }
    (strip_return(piece), tail.split_at(1).1)
}

/// Whether the line states nothing: it is empty, or begins with a hash.
pub fn is_silent(line: &[u8]) -> bool
    ensures { result ≡ is_silent_of line.now }
{
    match line {
        [] => true,
        [first, ..] => *first == b'#',
    }
}

/// The word at the front, empty at the end of the line, and what follows it.
pub fn word_of(text: &[u8]) -> (&[u8], &[u8])
    ensures word { (result.0.now, result.1.now) ≡ word_at text.now }
    ensures short { length result.1.now ≤ length text.now }
{
    Class::Except(b' ').split(unspaced(text))
}

/// Whether nothing but spaces is left.
pub fn is_blank(text: &[u8]) -> bool
    ensures { result ≡ is_blank_of text.now }
{
    unspaced(text).is_empty()
}

/// The next word, if there is one, and what follows it.
pub fn next_word(text: &[u8]) -> Option<(&[u8], &[u8])>
    ensures word { option_map (λ x. (x.0.now, x.1.now)) result ≡ next_word_of text.now }
    ensures short { IfSome result (λ x. length x.1.now ≤ length text.now) }
{
    let (word, rest) = word_of(text);
    if word.is_empty() {
        return None;
    }
    Some((word, rest))
}

/// The next word, if nothing follows it.
pub fn last_word(text: &[u8]) -> Option<&[u8]>
    ensures { option_copied result ≡ last_word_of text.now }
{
    let (word, rest) = next_word(text)?;
    if !is_blank(rest) {
        return None;
    }
    Some(word)
}

/// Whether the word is a letter a to z and then letters a to z, digits and `_`, of at most that many bytes.
pub fn is_name(most: usize, word: &[u8]) -> bool
    ensures name { result ≡ is_name_of most word.now }
    ensures ascii { result ≡ true → All (λ b. b < 128) word.now }
{
    if !Class::Letter.begins(word) {
        return false;
    }
    1 <= word.len() && word.len() <= most && are_all(Class::Name, word)
}

/// A name for something new, and what follows it.
pub fn new_name(text: &[u8]) -> Option<(&[u8], &[u8])>
    ensures name { option_map (λ x. (x.0.now, x.1.now)) result ≡ new_name_of text.now }
    ensures ascii { IfSome result (λ x. All (λ b. b < 128) x.0.now) }
    ensures short { IfSome result (λ x. length x.1.now ≤ length text.now) }
{
    let (name, rest) = next_word(text)?;
    if !is_name(32, name) {
        return None;
    }
    Some((name, rest))
}
