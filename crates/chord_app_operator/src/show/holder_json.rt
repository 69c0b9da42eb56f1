//! The holder of an identifier as JSON.
ghost use Rattle.std.specs.Prelude.{◌≡◌, ◌∷◌, map, codes, IfOk};
ghost use Rattle.serde_json.specs.View.{view};
ghost use Rattle.chord_app_operator.specs.Json.{record_of, id_data, count_member, holder_data};

use super::members::{put_counts, put_id};
use crate::operator::Holder;
use chord_ident::Id;
use serde_json::{Map, Value};
use std::alloc::{AllocError, Global};

// An object of an identifier and numbers.
fn held(alloc: Global, id: Id, counts: &[(&str, u64)]) -> Result<Value, AllocError>
    ensures { IfOk result (λ value. view value ≡ record_of ((codes "id", id_data id) ∷ map count_member counts.now)) }
{
    let mut members = Map::new(alloc);
    put_id(alloc, "id", id, &mut members)?;
    put_counts(alloc, counts, &mut members)?;
    Ok(Value::Object(members))
}

/// Who holds the identifier; null where that moved.
pub fn holder_value(alloc: Global, id: Id, holder: Holder) -> Result<Value, AllocError>
    ensures { IfOk result (λ value. view value ≡ holder_data id holder) }
{
    match holder {
        Holder::Node(node) => held(alloc, id, &[("node", node)]),
        Holder::Handover { from, to, number } => held(
            alloc,
            id,
            &[("from", from), ("to", to), ("handover", number)],
        ),
        Holder::Moved => Ok(Value::Null),
    }
}
