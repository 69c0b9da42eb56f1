//! Reading the body of a request.
ghost use Rattle.std.specs.Prelude.{◌≡◌, codes, IfOk};
ghost use Rattle.serde_json.specs.Find.{get, as_bool, as_object};
ghost use Rattle.serde_json.specs.View.{view};
ghost use Rattle.chord_app_operator.specs.Bodies.{body_object, viewed, if_object, count_of, object_len, has_only, optional, as_id, as_store, as_count, join_names, fits_store, join_of_members, join_of, force_of};

use super::calls::JoinRequest;
use super::fault::Fault;
use super::query::id_of_digits;
use super::store_kind::StoreKind;
use chord_ident::Id;
use serde_json::{Map, Value};
use std::alloc::{AllocError, Global};

/// The object that a body is. An empty body is an object without members.
pub(super) fn object(alloc: Global, body: &[u8]) -> Result<Result<Value, Fault>, AllocError>
    ensures { IfOk result (λ value. viewed value ≡ body_object body.now) }
{
    if body.is_empty() {
        return Ok(Ok(Value::Object(Map::new(alloc))));
    }
    match Value::from_slice(alloc, body) {
        Ok(value) => Ok(only_object(value)),
        Err(error) => {
            let is_memory = error.is_memory();
            drop(error);
            if is_memory {
                Err(AllocError)
            } else {
                Ok(Err(Fault::NotJson))
            }
        }
    }
}

fn only_object(value: Value) -> Result<Value, Fault>
    ensures { viewed result ≡ if_object (view value) }
{
    if value.is_object() {
        return Ok(value);
    }
    drop(value);
    Err(Fault::NotObject)
}

// 1 if the member is there.
fn count(value: &Value, name: &str) -> usize
    ensures { result ≡ count_of (view value.now) name.now }
{
    if value.get(name).is_some() { 1 } else { 0 }
}

fn len(value: &Value) -> usize
    ensures { result ≡ object_len (as_object (view value.now)) }
{
    match value.as_object() {
        Some(members) => members.len(),
        None => 0,
    }
}

fn id(value: &Value) -> Result<Option<Id>, Fault>
    ensures { result ≡ optional as_id Fault.BadId (get (codes "id") (view value.now)) }
{
    let Some(member) = value.get("id") else {
        return Ok(None);
    };
    match member.as_str().and_then(id_of_digits) {
        Some(id) => Ok(Some(id)),
        None => Err(Fault::BadId),
    }
}

fn store(value: &Value) -> Result<Option<StoreKind>, Fault>
    ensures { result ≡ optional as_store Fault.BadStore (get (codes "store") (view value.now)) }
{
    let Some(member) = value.get("store") else {
        return Ok(None);
    };
    match member.as_str().and_then(StoreKind::of_word) {
        Some(store) => Ok(Some(store)),
        None => Err(Fault::BadStore),
    }
}

fn number(value: &Value, name: &str, fault: Fault) -> Result<Option<u64>, Fault>
    ensures { result ≡ optional as_count fault (get name.now (view value.now)) }
{
    let Some(member) = value.get(name) else {
        return Ok(None);
    };
    match member.as_u64() {
        Some(number) => Ok(Some(number)),
        None => Err(fault),
    }
}

fn fits(store: StoreKind, limit: Option<u64>) -> bool
    ensures { result ≡ fits_store store limit }
{
    limit.is_none() || store == StoreKind::Capped
}

impl JoinRequest {
    fn of_members(value: &Value) -> Result<JoinRequest, Fault>
        ensures { result ≡ join_of_members (view value.now) }
    {
        let id = id(value)?;
        let store = store(value)?.unwrap_or(StoreKind::Tree);
        let limit = number(value, "limit", Fault::BadLimit)?;
        let via = number(value, "via", Fault::BadVia)?;
        if !fits(store, limit) {
            return Err(Fault::BadLimit);
        }
        Ok(JoinRequest {
            id,
            store,
            limit,
            via,
        })
    }

    /// The join that an object asks for: `id`, `store`, `limit` and `via`, each of which may be
    /// absent.
    pub fn of_object(value: &Value) -> Result<JoinRequest, Fault>
        ensures { result ≡ join_of (view value.now) }
    {
        let known = count(value, "id")
            + count(value, "store")
            + count(value, "limit")
            + count(value, "via");
        if len(value) != known {
            return Err(Fault::UnknownMember);
        }
        JoinRequest::of_members(value)
    }
}

/// Whether an object says that a crash is forced.
pub(super) fn is_forced(value: &Value) -> Result<bool, Fault>
    ensures { result ≡ force_of (view value.now) }
{
    if len(value) != count(value, "force") {
        return Err(Fault::UnknownMember);
    }
    let Some(member) = value.get("force") else {
        return Ok(false);
    };
    match member.as_bool() {
        Some(is_forced) => Ok(is_forced),
        None => Err(Fault::BadForce),
    }
}
