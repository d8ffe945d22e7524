//! The names of stations.
ghost use Rattle.std.specs.Prelude.{◌≡◌, true, false, IfSome, IfNone};
ghost use Rattle.std.specs.List.{list_all};
ghost use Rattle.nest_core.specs.StationName.{is_station_name, is_station_byte};

use codes_core::Spelling;
use std::marker::Model;

/// A station's name: 1 to 16 of `A` to `Z`, `a` to `z`, `0` to `9` and the dash. Contracts see it
/// as its bytes.
#[derive(Clone, Copy, PartialEq, Eq, Hash)]
pub(crate) struct StationName {
    spelling: Spelling<16>,
}

impl Model for StationName {
    ghost use Rattle.std.specs.Prelude.{List, ℕ, ◌≡◌, true};
    ghost use Rattle.nest_core.specs.StationName.{is_station_name};

    ghost Value = { List ℕ };

    ghost view = { λ n. n.spelling };

    ghost invariant = { λ n. is_station_name n.spelling ≡ true };

    ghost inverse = { λ v. record { spelling = v } };
}

impl StationName {
    /// The name with these bytes, or `None` if they aren't a station's name.
    pub fn parse(bytes: &[u8]) -> Option<StationName>
        ensures name { IfSome result
            (λ name. (name ≡ bytes.now) × (is_station_name bytes.now ≡ true)) }
        ensures none { IfNone result (is_station_name bytes.now ≡ false) }
    {
        if !is_station_name(bytes) {
            return None;
        }
        Some(StationName {
            spelling: Spelling::new(bytes),
        })
    }

    /// The name's text.
    pub fn as_str(&self) -> &str
        ensures { result.now ≡ self.now }
    {
        self.spelling.as_str()
    }
}

fn are_station_bytes(text: &[u8]) -> bool
    ensures { result ≡ list_all is_station_byte text.now }
{
    text.iter().all(|b| b.is_ascii_alphanumeric() || *b == b'-')
}

fn is_station_name(text: &[u8]) -> bool
    ensures { result ≡ is_station_name text.now }
{
    text.len() > 0 && text.len() <= 16 && are_station_bytes(text)
}
