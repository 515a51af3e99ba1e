// Where a line or a word ends.

ghost use Rattle.std.specs.Prelude.{IfSome, ◌&&◌, ◌≡◌, ◌<◌, ◌≤◌, ◌==◌, not, [], ◌∷◌, length, nat_lt, position, if◌then◌else◌};
ghost use Rattle.std.specs.List.{position_or_len};
ghost use Rattle.outside.specs.{is_separator, lines, words};
ghost use Rattle.record_lines.specs.{is_comment, has_word};

pub fn is_separator(byte: u8) -> bool
    ensures { result ≡ is_separator byte }
{
    byte == b' ' || byte == b'\t' || byte == b',' || byte == b'\r'
}

#[tactic(auto, unfolding(crate::specs::Spread::has_word))]
pub fn has_word(line: &[u8]) -> bool
    ensures { result ≡ has_word line.now }
{
    line.iter().any(|byte| !is_separator(*byte))
}

fn feed_at(text: &[u8]) -> Option<usize>
    ensures { result ≡ position (λ c. c == 10) text.now }
{
    text.iter().position(|byte| *byte == b'\n')
}

fn word_at(line: &[u8]) -> Option<usize>
    ensures { result ≡ position (λ c. not (is_separator c)) line.now }
{
    line.iter().position(|byte| !is_separator(*byte))
}

fn separator_at(line: &[u8]) -> Option<usize>
    ensures { result ≡ position is_separator line.now }
{
    line.iter().position(|byte| is_separator(*byte))
}

/// The number of bytes before the first line feed.
#[tactic(auto, using(crate::proofs::CutLemmas::place_of_some, crate::proofs::CutLemmas::place_of_none, crate::proofs::CutLemmas::place_within))]
fn line_length(text: &[u8]) -> usize
    ensures value { result ≡ position_or_len (λ c. c == 10) text.now }
    ensures within { result ≤ length text.now }
{
    match feed_at(text) {
        Some(at) => at,
        None => text.len(),
    }
}

/// The number of leading separators.
#[tactic(auto, using(crate::proofs::CutLemmas::place_of_some, crate::proofs::CutLemmas::place_of_none, crate::proofs::CutLemmas::place_within))]
fn gap_length(line: &[u8]) -> usize
    ensures value { result ≡ position_or_len (λ c. not (is_separator c)) line.now }
    ensures within { result ≤ length line.now }
{
    match word_at(line) {
        Some(at) => at,
        None => line.len(),
    }
}

/// The number of bytes before the first separator.
#[tactic(auto, using(crate::proofs::CutLemmas::place_of_some, crate::proofs::CutLemmas::place_of_none, crate::proofs::CutLemmas::place_within))]
fn word_length(line: &[u8]) -> usize
    ensures value { result ≡ position_or_len is_separator line.now }
    ensures within { result ≤ length line.now }
{
    match separator_at(line) {
        Some(at) => at,
        None => line.len(),
    }
}

/// The first line, and what follows its line feed.
#[tactic(auto, using(crate::proofs::CutLemmas::last_line, crate::proofs::CutLemmas::ended_line))]
pub fn cut_line(text: &[u8]) -> (&[u8], &[u8])
    requires { 0 < length text.now }
    ensures line { lines text.now ≡ result.0.now ∷ lines result.1.now }
    ensures shorter { length result.1.now < length text.now }
{
    let length = line_length(text);
    let (line, after) = text.split_at(length);
    match after {
        [] => (line, after),
        [_, rest @ ..] => (line, rest),
    }
}

/// The first word, or an empty one, and what follows it.
pub fn cut_word(line: &[u8]) -> (&[u8], &[u8])
    ensures word { words line.now ≡ (if nat_lt 0 (length result.0.now) then result.0.now ∷ words result.1.now else []) }
    ensures none { length result.0.now ≡ 0 → words result.1.now ≡ [] }
{
    let gap = gap_length(line);
    let (_, rest) = line.split_at(gap);
    let length = word_length(rest);
    rest.split_at(length)
}

pub fn is_comment(line: &[u8]) -> bool
    ensures { result ≡ is_comment line.now }
{
    matches!(line, [b'#', ..])
}

/// The place of the first `*`.
pub fn star_at(word: &[u8]) -> Option<usize>
    ensures place { result ≡ position (λ c. c == 42) word.now }
    ensures within { IfSome result (λ at. at < length word.now) }
{
    word.iter().position(|byte| *byte == b'*')
}

/// Whether the line has a word and is no comment, so that a file's items begin here at the latest.
pub fn is_item(line: &[u8]) -> bool
    ensures { result ≡ (has_word line.now && not (is_comment line.now)) }
{
    has_word(line) && !is_comment(line)
}
