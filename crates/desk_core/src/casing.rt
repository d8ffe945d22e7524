//! A word as codes are written, in upper and lower case.
ghost use Rattle.std.specs.Prelude.{◌≡◌, MatchOption, false, length, map, true};
ghost use Rattle.desk_core.specs.Codes.{as_place, as_thing, cased, is_place, is_thing};

use codes_core::{PlaceCode, ThingCode};

/// The longest code of a place, in bytes.
const LONGEST_PLACE: usize = 35;

/// The longest code of a thing, in bytes.
const LONGEST_THING: usize = 27;

/// The code of a place that the word is in upper case.
#[tactic(auto, using(crate::proofs::LongTexts::long_as_place))]
pub(crate) fn parse_as_place(word: &[u8]) -> Option<PlaceCode>
    ensures { MatchOption result (is_place (as_place word.now) ≡ false)
        (λ code. (code ≡ as_place word.now) × (is_place (as_place word.now) ≡ true)) }
{
    if word.len() > LONGEST_PLACE {
        return None;
    }
    let mut text = [0u8; LONGEST_PLACE];
    write_cased(word, true, &mut text[..word.len()]);
    PlaceCode::parse(&text[..word.len()]).ok()
}

/// The code of a thing that the word is with its first letter in upper case and the others in lower
/// case.
#[tactic(auto, using(crate::proofs::LongTexts::long_as_thing))]
pub(crate) fn parse_as_thing(word: &[u8]) -> Option<ThingCode>
    ensures { MatchOption result (is_thing (as_thing word.now) ≡ false)
        (λ code. (code ≡ as_thing word.now) × (is_thing (as_thing word.now) ≡ true)) }
{
    if word.len() > LONGEST_THING {
        return None;
    }
    let mut text = [0u8; LONGEST_THING];
    write_cased(word, false, &mut text[..word.len()]);
    text[0] = text[0].to_ascii_uppercase();
    ThingCode::parse(&text[..word.len()]).ok()
}

/// Writes the word in upper or in lower case.
fn write_cased(word: &[u8], upper: bool, text: &mut [u8])
    requires { length text.old ≡ length word.now }
    ensures { text.new ≡ map (cased upper) word.now }
{
    for (i, byte) in word.iter().enumerate() {
        text[i] = cased(upper, *byte);
    }
}

/// The byte in upper or in lower case.
fn cased(upper: bool, byte: u8) -> u8
    ensures { result ≡ cased upper byte }
{
    if upper {
        byte.to_ascii_uppercase()
    } else {
        byte.to_ascii_lowercase()
    }
}
