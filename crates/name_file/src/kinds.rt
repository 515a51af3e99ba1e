ghost use Rattle.std.specs.Prelude.{◌≡◌};
ghost use Rattle.name_file.specs.{package_of, is_passed_over};

use crate::package::Package;
use record_lines::is_word;

/// The package that a line's first word names, in any letter case.
#[tactic(auto, unfolding(crate::specs::Reading::package_of))]
pub fn package_of(word: &[u8]) -> Option<Package>
    ensures { result ≡ package_of word.now }
{
    if is_word(b"DIS", word) {
        Some(Package::Dis)
    } else if is_word(b"BAS6", word) {
        Some(Package::Bas)
    } else if is_word(b"LPF", word) {
        Some(Package::Lpf)
    } else if is_word(b"WEL", word) {
        Some(Package::Wel)
    } else if is_word(b"RIV", word) {
        Some(Package::Riv)
    } else if is_word(b"DRN", word) {
        Some(Package::Drn)
    } else if is_word(b"GHB", word) {
        Some(Package::Ghb)
    } else if is_word(b"RCH", word) {
        Some(Package::Rch)
    } else if is_word(b"CHD", word) {
        Some(Package::Chd)
    } else if is_word(b"EVT", word) {
        Some(Package::Evt)
    } else {
        None
    }
}

/// Whether lines with this first word are skipped.
#[tactic(auto, unfolding(crate::specs::Reading::is_passed_over))]
pub fn is_passed_over(word: &[u8]) -> bool
    ensures { result ≡ is_passed_over word.now }
{
    is_word(b"LIST", word)
        || is_word(b"OC", word)
        || is_word(b"PCG", word)
        || is_word(b"PCGN", word)
        || is_word(b"SIP", word)
        || is_word(b"DE4", word)
        || is_word(b"GMG", word)
        || is_word(b"LMT6", word)
        || is_word(b"MULT", word)
        || is_word(b"ZONE", word)
        || is_word(b"PVAL", word)
        || is_word(b"DATA", word)
        || is_word(b"DATA(BINARY)", word)
}
