//! Reading a path.
ghost use Rattle.std.specs.Prelude.{◌≡◌, IfOk, Some, option_copied, option_map};
ghost use Rattle.chord_app_operator.specs.Paths.{number_of, behind, before, plain_resource, node_before, node_resource, holder_resource, resource_of};

use super::resource::Resource;
use chord_ident::Id;
use percent_encoding::percent_decode;
use std::alloc::{AllocError, Global};

// The number that 1 to 19 decimal digits write: less than 2^64.
#[tactic(auto, using(crate::proofs::Digits::no_digit))]
pub(super) fn number_of_digits(text: &[u8]) -> Option<u64>
    ensures { result ≡ number_of text.now }
{
    if text.is_empty() || text.len() > 19 {
        return None;
    }
    let mut number = 0u64;
    for digit in text {
        if !digit.is_ascii_digit() {
            return None;
        }
        number = number * 10 + (*digit - b'0') as u64;
    }
    Some(number)
}

fn behind_front<'a>(front: &[u8], text: &'a [u8]) -> Option<&'a [u8]>
    ensures { option_copied result ≡ behind front.now text.now }
{
    text.strip_prefix(front)
}

fn before_back<'a>(back: &[u8], text: &'a [u8]) -> Option<&'a [u8]>
    ensures { option_copied result ≡ before back.now text.now }
{
    text.strip_suffix(back)
}

fn plain(path: &str) -> Option<Resource>
    ensures { result ≡ plain_resource path.now }
{
    match path {
        "/" => Some(Resource::Page),
        "/ring" => Some(Resource::Ring),
        "/metrics" => Some(Resource::Metrics),
        "/health" => Some(Resource::Health),
        "/ready" => Some(Resource::Ready),
        "/nodes" => Some(Resource::Nodes),
        "/pairs" => Some(Resource::Pairs),
        "/stop" => Some(Resource::Stop),
        _ => None,
    }
}

fn number_before(verb: &[u8], path: &[u8]) -> Option<u64>
    ensures { result ≡ node_before verb.now path.now }
{
    number_of_digits(before_back(verb, behind_front(b"/nodes/", path)?)?)
}

fn node(path: &[u8]) -> Option<Resource>
    ensures { result ≡ node_resource path.now }
{
    if let Some(number) = number_before(b"/leave", path) {
        return Some(Resource::Leave(number));
    }
    if let Some(number) = number_before(b"/crash", path) {
        return Some(Resource::Crash(number));
    }
    Some(Resource::Rescue(number_before(b"/rescue", path)?))
}

fn holder(alloc: Global, path: &[u8]) -> Result<Option<Resource>, AllocError>
    ensures { IfOk result (λ resource. resource ≡ holder_resource path.now) }
{
    match behind_front(b"/holder/", path) {
        Some(text) => {
            let mut key = Vec::new(alloc);
            percent_decode(text).append_to(&mut key)?;
            Ok(Some(Resource::Holder(Id::of_bytes(&key))))
        }
        None => Ok(None),
    }
}

impl Resource {
    /// What a path names, if anything.
    pub fn of_path(alloc: Global, path: &str) -> Result<Option<Resource>, AllocError>
        ensures { IfOk result (λ resource. resource ≡ resource_of path.now) }
    {
        if let Some(resource) = plain(path) {
            return Ok(Some(resource));
        }
        if let Some(resource) = node(path.as_bytes()) {
            return Ok(Some(resource));
        }
        holder(alloc, path.as_bytes())
    }
}
