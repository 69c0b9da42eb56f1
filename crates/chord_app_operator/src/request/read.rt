//! Reading a request.
ghost use Rattle.std.specs.Prelude.{◌≡◌, map, option_copied};
ghost use Rattle.std.specs.List.{list_all};
ghost use Rattle.http.specs.Request.{head_of, body_of};
ghost use Rattle.chord_app_operator.specs.Sites.{values_of, hosts_of, is_own_host, is_own_origin, is_for_own_host, is_from_own_origin};
ghost use Rattle.chord_app_operator.specs.Requests.{UnlessMemory, make, call_at, allowed_call, requested};
ghost use Rattle.chord_app_operator.specs.Outcomes.{and_then};
ghost use Rattle.chord_app_operator.specs.Bodies.{body_object, join_of, force_of};
ghost use Rattle.chord_app_operator.specs.Queries.{pairs_request};
ghost use Rattle.chord_app_operator.specs.Rows.{rows_asked};

use super::body::{is_forced, object};
use super::calls::{CrashRequest, JoinRequest, OperatorCall, PairsRequest};
use super::refusal::Refusal;
use super::resource::Resource;
use super::rows::Rows;
use super::site::Site;
use bytes::Bytes;
use http::header::GetAll;
use http::{HeaderValue, Request};
use std::alloc::Global;

/// A longer body is refused.
pub const BODY_LIMIT: usize = 4096;

impl Site {
    fn are_own_hosts(&self, hosts: GetAll<'_, HeaderValue>) -> bool
        ensures { result ≡ list_all (is_own_host self.now) (map (λ host. host.bytes) hosts.entry) }
    {
        for host in hosts {
            if !self.is_own_host(host.as_bytes()) {
                return false;
            }
        }
        true
    }

    fn are_own_origins(&self, origins: GetAll<'_, HeaderValue>) -> bool
        ensures { result ≡ list_all (is_own_origin self.now) (map (λ origin. origin.bytes) origins.entry) }
    {
        for origin in origins {
            if !self.is_own_origin(origin.as_bytes()) {
                return false;
            }
        }
        true
    }

    // Whether each host that the request names is the port's own, and there is one.
    fn is_for_own_host(&self, request: &Request<Bytes>) -> bool
        ensures { result ≡ is_for_own_host self.now (head_of request.now) }
    {
        let headers = request.headers();
        match request.uri().authority() {
            Some(authority) => {
                self.is_own_host(authority.as_str().as_bytes())
                    && self.are_own_hosts(headers.get_all("host"))
            }
            None => { headers.get("host").is_some() && self.are_own_hosts(headers.get_all("host")) }
        }
    }

    // Whether each origin that the request names is the port's own.
    fn is_from_own_origin(&self, request: &Request<Bytes>) -> bool
        ensures { result ≡ is_from_own_origin self.now (head_of request.now) }
    {
        self.are_own_origins(request.headers().get_all("origin"))
    }
}

fn join(alloc: Global, body: &[u8]) -> Result<OperatorCall, Refusal>
    ensures { UnlessMemory result (make OperatorCall.Join (and_then join_of (body_object body.now))) }
{
    let Ok(read) = object(alloc, body) else {
        return Err(Refusal::Memory);
    };
    match read {
        Ok(value) => {
            let request = JoinRequest::of_object(&value);
            drop(value);
            match request {
                Ok(request) => Ok(OperatorCall::Join(request)),
                Err(fault) => Err(Refusal::Bad(fault)),
            }
        }
        Err(fault) => Err(Refusal::Bad(fault)),
    }
}

fn crash(alloc: Global, node: u64, body: &[u8]) -> Result<OperatorCall, Refusal>
    ensures { UnlessMemory result (make (λ forced. OperatorCall.Crash (record { node = node; is_forced = forced })) (and_then force_of (body_object body.now))) }
{
    let Ok(read) = object(alloc, body) else {
        return Err(Refusal::Memory);
    };
    match read {
        Ok(value) => {
            let is_forced = is_forced(&value);
            drop(value);
            match is_forced {
                Ok(is_forced) => Ok(OperatorCall::Crash(CrashRequest { node, is_forced })),
                Err(fault) => Err(Refusal::Bad(fault)),
            }
        }
        Err(fault) => Err(Refusal::Bad(fault)),
    }
}

fn ring(query: Option<&str>) -> Result<OperatorCall, Refusal>
    ensures { result ≡ make OperatorCall.Ring (rows_asked (option_copied query.entry)) }
{
    match Rows::of_query(query) {
        Ok(rows) => Ok(OperatorCall::Ring(rows)),
        Err(fault) => Err(Refusal::Bad(fault)),
    }
}

fn pairs(query: Option<&str>) -> Result<OperatorCall, Refusal>
    ensures { result ≡ make OperatorCall.Pairs (pairs_request (option_copied query.entry)) }
{
    match PairsRequest::of_query(query) {
        Ok(request) => Ok(OperatorCall::Pairs(request)),
        Err(fault) => Err(Refusal::Bad(fault)),
    }
}

impl Resource {
    // The call at the resource.
    fn call(self, alloc: Global, query: Option<&str>, body: &[u8]) -> Result<OperatorCall, Refusal>
        ensures { UnlessMemory result (call_at self (option_copied query.entry) body.now) }
    {
        match self {
            Resource::Page => Ok(OperatorCall::Page),
            Resource::Ring => ring(query),
            Resource::Metrics => Ok(OperatorCall::Metrics),
            Resource::Health => Ok(OperatorCall::Health),
            Resource::Ready => Ok(OperatorCall::Ready),
            Resource::Nodes => join(alloc, body),
            Resource::Leave(node) => Ok(OperatorCall::Leave(node)),
            Resource::Crash(node) => crash(alloc, node, body),
            Resource::Rescue(node) => Ok(OperatorCall::Rescue(node)),
            Resource::Holder(id) => Ok(OperatorCall::Holder(id)),
            Resource::Pairs => pairs(query),
            Resource::Stop => Ok(OperatorCall::Stop),
        }
    }

    // The same, if the method and the body's length are right.
    fn allowed_call(self, alloc: Global, request: &Request<Bytes>) -> Result<OperatorCall, Refusal>
        ensures { UnlessMemory result (allowed_call (head_of request.now) (body_of request.now) self) }
    {
        let verb = self.verb();
        if !verb.allows(request.method().as_str()) {
            return Err(Refusal::WrongMethod(verb));
        }
        let body = request.body().as_slice();
        if body.len() > BODY_LIMIT {
            return Err(Refusal::BodyTooLong);
        }
        self.call(alloc, request.uri().query(), body)
    }
}

impl Site {
    /// The call that a request makes, or why it is refused: by its host, its origin, its path, its
    /// method, the length of its body, and what its body or its query says, in this order.
    pub fn call_of(&self, alloc: Global, request: &Request<Bytes>) -> Result<OperatorCall, Refusal>
        ensures { UnlessMemory result (requested self.now (head_of request.now) (body_of request.now)) }
    {
        if !self.is_for_own_host(request) {
            return Err(Refusal::ForeignHost);
        }
        if !self.is_from_own_origin(request) {
            return Err(Refusal::ForeignOrigin);
        }
        match Resource::of_path(alloc, request.uri().path()) {
            Ok(Some(resource)) => resource.allowed_call(alloc, request),
            Ok(None) => Err(Refusal::NoSuchPath),
            Err(_) => Err(Refusal::Memory),
        }
    }
}
