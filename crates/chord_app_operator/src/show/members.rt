//! Members of objects of JSON.
ghost use Rattle.std.specs.Prelude.{◌≡◌, ◌∷◌, [], map, IfOk, OnOk};
ghost use Rattle.hex.specs.Hex.{encode_lower};
ghost use Rattle.serde_json.specs.Data.{string, put};
ghost use Rattle.serde_json.specs.View.{view, members_view};
ghost use Rattle.chord_app_operator.specs.Json.{with_members, record_of, id_data, count_member};

use super::json::id_text;
use chord_ident::Id;
use serde_json::{Map, Value, put};
use std::alloc::{AllocError, Global};

/// An identifier under a name.
pub(super) fn put_id(
    alloc: Global,
    name: &str,
    id: Id,
    members: &mut Map<String, Value>,
) -> Result<(), AllocError>
    ensures { OnOk result (members_view members.new.entries ≡ put name.now (id_data id) (members_view members.old.entries)) }
{
    let digits = id_text(alloc, id)?;
    put(members, alloc, name, Value::String(digits))
}

/// Bytes under a name, as hexadecimal digits.
pub(super) fn put_bytes(
    alloc: Global,
    name: &str,
    bytes: &[u8],
    members: &mut Map<String, Value>,
) -> Result<(), AllocError>
    ensures { OnOk result (members_view members.new.entries ≡ put name.now (string (encode_lower bytes.now)) (members_view members.old.entries)) }
{
    let digits = hex::encode(alloc, bytes)?;
    put(members, alloc, name, Value::String(digits))
}

/// A word under a name.
pub(super) fn put_word(
    alloc: Global,
    name: &str,
    word: &str,
    members: &mut Map<String, Value>,
) -> Result<(), AllocError>
    ensures { OnOk result (members_view members.new.entries ≡ put name.now (string word.now) (members_view members.old.entries)) }
{
    let text = Value::try_from_str(alloc, word)?;
    put(members, alloc, name, text)
}

/// Numbers under names.
pub(super) fn put_counts(
    alloc: Global,
    counts: &[(&str, u64)],
    members: &mut Map<String, Value>,
) -> Result<(), AllocError>
    ensures { OnOk result (members_view members.new.entries ≡ with_members (members_view members.old.entries) (map count_member counts.now)) }
{
    for (name, count) in counts {
        put(members, alloc, name, Value::from(*count))?;
    }
    Ok(())
}

/// An object of numbers.
pub(super) fn counts_value(alloc: Global, counts: &[(&str, u64)]) -> Result<Value, AllocError>
    ensures { IfOk result (λ value. view value ≡ record_of (map count_member counts.now)) }
{
    let mut members = Map::new(alloc);
    put_counts(alloc, counts, &mut members)?;
    Ok(Value::Object(members))
}
