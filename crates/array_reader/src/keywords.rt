// Option words of a line.
ghost use Rattle.std.specs.Prelude.{◌≡◌};
ghost use Rattle.std.specs.List.{list_any};
ghost use Rattle.record_lines.specs.{is_word};

use record_lines::{Words, is_word};

/// Whether one of the remaining words is this keyword, in any letter case.
pub fn has_keyword(keyword: &[u8], words: &mut Words) -> bool
    ensures { result ≡ list_any (is_word keyword.now) words.old }
{
    while let Some(word) = words.next() {
        if is_word(keyword, word) {
            return true;
        }
    }
    false
}
