// The end of a word.
ghost use Rattle.std.specs.Prelude.{◌≡◌, ◌≤◌, ◌==◌, drop, length, position};
ghost use Rattle.std.specs.List.{position_or_len};
ghost use Rattle.listing_io.specs.{after_word, first_word};

fn blank_at(text: &[u8]) -> Option<usize>
    ensures { result ≡ position (λ c. c == 32) text.now }
{
    text.iter().position(|byte| *byte == b' ')
}

/// The number of bytes before the first blank.
#[tactic(auto, using(record_lines::proofs::CutLemmas::place_of_some, record_lines::proofs::CutLemmas::place_of_none, record_lines::proofs::CutLemmas::place_within))]
fn word_length(text: &[u8]) -> usize
    ensures value { result ≡ position_or_len (λ c. c == 32) text.now }
    ensures within { result ≤ length text.now }
{
    match blank_at(text) {
        Some(at) => at,
        None => text.len(),
    }
}

/// The text after `count` bytes.
pub(crate) fn skip_bytes(text: &[u8], count: usize) -> &[u8]
    ensures { result.now ≡ drop count text.now }
{
    if count <= text.len() {
        text.split_at(count).1
    } else {
        text.split_at(text.len()).1
    }
}

/// The text before the first blank.
pub(crate) fn first_word(text: &[u8]) -> &[u8]
    ensures { result.now ≡ first_word text.now }
{
    text.split_at(word_length(text)).0
}

/// The text after the first blank.
pub(crate) fn after_word(text: &[u8]) -> &[u8]
    ensures { result.now ≡ after_word text.now }
{
    let length = word_length(text);
    let (_, after) = text.split_at(length);
    skip_bytes(after, 1)
}
