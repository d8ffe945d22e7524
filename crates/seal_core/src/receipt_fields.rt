//! Reads the fields of a receipt's JSON object.
ghost use Rattle.std.specs.Prelude.{◌≡◌, ◌<◌, ◌^◌, ℕ, List, All, Some, IfOk, codes};
ghost use Rattle.std.specs.Prelude.{map, option_map, option_and_then};
ghost use Rattle.std.specs.Option.{IsSomeAnd};
ghost use Rattle.hex.specs.Hex.{encode_lower};
ghost use Rattle.serde_json.specs.Data.{array, number, string, unsigned};
ghost use Rattle.serde_json.specs.Find.{as_array, as_str, get};
ghost use Rattle.serde_json.specs.View.{items_of};
ghost use Rattle.borrowed_json.specs.View.{view};
ghost use Rattle.seal_core.specs.ReceiptReadings.{IsHash};

use crate::reading::read_head;
use borrowed_json::{Fields, Value};
use codes_core::NoMemory;
use posting_core::EntryNo;
use std::alloc::Global;

/// The number at this key, if it is below 2^32.
pub(crate) fn count_at(value: &Value, key: &str) -> Option<EntryNo>
    ensures { (n : ℕ) → n < 2 ^ 32 → get key.now (view value.now) ≡ Some (number (unsigned n))
        → result ≡ Some n }
{
    let count = value.at(key)?.whole_number()?;
    if count <= u64::from(EntryNo::MAX) {
        Some(count as EntryNo)
    } else {
        None
    }
}

/// The text at this key.
pub(crate) fn text_at<'a>(value: &'a Value<'a>, key: &str) -> Option<&'a str>
    ensures { option_map (λ text. text.now) result
        ≡ option_and_then as_str (get key.now (view value.entry.now)) }
{
    value.at(key)?.text()
}

/// The hash whose digits are at this key.
pub(crate) fn head_at(value: &Value, key: &str) -> Option<[u8; 32]>
    ensures { (hash : List ℕ) → IsHash hash
        → get key.now (view value.now) ≡ Some (string (encode_lower hash))
        → result ≡ Some hash }
{
    hash_of(value.at(key)?)
}

/// The hash whose digits the value has.
fn hash_of(value: &Value) -> Option<[u8; 32]>
    ensures { (hash : List ℕ) → IsHash hash → view value.now ≡ string (encode_lower hash)
        → result ≡ Some hash }
{
    read_head(value.text()?.as_bytes())
}

/// The hashes at the key `path`. Fails with `NoMemory`.
pub(crate) fn path_at(alloc: Global, value: &Value) -> Result<Option<Vec<[u8; 32]>>, NoMemory>
    ensures { (hashes : List (List ℕ)) → All IsHash hashes
        → get (codes "path") (view value.now)
        ≡ Some (array (items_of (map string (map encode_lower hashes))))
        → IfOk result (λ found. IsSomeAnd found (λ path. path.items ≡ hashes)) }
{
    match list_at(value, "path") {
        Some(items) => hashes_of(alloc, items),
        None => Ok(None),
    }
}

/// The items at this key.
fn list_at<'a>(value: &'a Value<'a>, key: &str) -> Option<&'a [Value<'a>]>
    ensures { option_map (λ items. items_of (map view items.now)) result
        ≡ option_and_then as_array (get key.now (view value.entry.now)) }
{
    value.at(key)?.items()
}

/// The hashes whose digits the values have. Fails with `NoMemory`.
fn hashes_of(alloc: Global, values: &[Value]) -> Result<Option<Vec<[u8; 32]>>, NoMemory>
    ensures { (hashes : List (List ℕ)) → All IsHash hashes
        → map view values.now ≡ map string (map encode_lower hashes)
        → IfOk result (λ found. IsSomeAnd found (λ path. path.items ≡ hashes)) }
{
    let mut hashes = Vec::new(alloc);
    for value in values {
        let Some(hash) = hash_of(value) else {
            return Ok(None);
        };
        hashes.push(hash)?;
    }
    Ok(Some(hashes))
}
