//! Values as JSON.
ghost use Rattle.std.specs.Prelude.{◌≡◌, map, string_bytes, IfOk};
ghost use Rattle.serde_json.specs.Data.{Data, array};
ghost use Rattle.serde_json.specs.View.{view, items_of, items_view};
ghost use Rattle.chord_app_operator.specs.Json.{id_hex, id_data, count_data, optional_data};

use chord_ident::Id;
use serde_json::{Value, push};
use std::alloc::{AllocError, Global};

/// An identifier as 32 lower case hexadecimal digits.
pub fn id_text(alloc: Global, id: Id) -> Result<String, AllocError>
    ensures { IfOk result (λ text. string_bytes text ≡ id_hex id) }
{
    hex::encode(alloc, id.value().to_be_bytes())
}

/// What has a value in JSON.
pub trait ToJson {
    /// Its value.
    ghost data_of: { Self → Data };

    fn to_json(&self, alloc: Global) -> Result<Value, AllocError>
        ensures { IfOk result (λ value. view value ≡ data_of self.now) };
}

impl ToJson for u64 {
    ghost data_of = { count_data };

    fn to_json(&self, _alloc: Global) -> Result<Value, AllocError> {
        Ok(Value::from(*self))
    }
}

impl ToJson for Id {
    ghost data_of = { id_data };

    fn to_json(&self, alloc: Global) -> Result<Value, AllocError> {
        Ok(Value::String(id_text(alloc, *self)?))
    }
}

/// A number, or null where it is absent.
pub fn optional(number: Option<u64>) -> Value
    ensures { view result ≡ optional_data number }
{
    match number {
        Some(number) => Value::from(number),
        None => Value::Null,
    }
}

/// The values of a list, in order.
pub fn array<T: ToJson>(alloc: Global, list: &[T]) -> Result<Value, AllocError>
    ensures { IfOk result (λ value. view value ≡ array (items_of (map T.data_of list.now))) }
{
    let mut values = Vec::new(alloc);
    for item in list {
        push(&mut values, item.to_json(alloc)?)?;
    }
    Ok(Value::Array(values))
}
