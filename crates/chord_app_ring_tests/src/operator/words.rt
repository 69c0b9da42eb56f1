//! Words, and what a request reads as.

use crate::checks::check;
use bytes::Bytes;
use chord_app_operator::{
    CrashRefusal, Fault, JoinRefusal, JoinRequest, LeaveRefusal, OperatorCall, PageState, Pair,
    PairsRequest, Refusal, RescueRefusal, Resource, Rows, Site, StoreKind, Verb, pair_lines,
};
use chord_sight::Phase;
use http::Request;
use serde_json::Value;
use std::alloc::Global;
use std::test::Fail;

#[test]
fn words_are_those_of_the_page(rt: HostRuntime) -> Result<(), Fail> {
    check!(&rt; Phase::Leaving.word() == "leaving");
    check!(&rt; Phase::Rescuing.word() == "rescuing");
    check!(&rt; StoreKind::Capped.word() == "capped");
    check!(&rt; StoreKind::of_word("list") == Some(StoreKind::List));
    check!(&rt; StoreKind::of_word("List").is_none());
    check!(&rt; PageState::UnderWay.word() == "underway");
    check!(&rt; PageState::of_word("lost") == Some(PageState::Lost));
    check!(&rt; PageState::of_word("").is_none());
    check!(&rt; Verb::Look.allows("HEAD") && !Verb::Act.allows("GET"));
    check!(&rt; Verb::Act.allowed_text() == "POST");
    check!(&rt; Fault::BadVia.name() == "BadVia");
    check!(&rt; JoinRefusal::NoSlot.name() == "NoSlot");
    check!(&rt; LeaveRefusal::NotStaying.name() == "NotStaying");
    check!(&rt; CrashRefusal::Unsafe.name() == "Unsafe");
    check!(&rt; RescueRefusal::NotCrashed.name() == "NotCrashed");
    check!(&rt; Refusal::Bad(Fault::BadId).name() == "BadId");
    check!(&rt; Refusal::Crash(CrashRefusal::NoSuchNode).status().as_u16() == 404);
    Ok(())
}

#[test]
fn paths_name_resources(rt: HostRuntime) -> Result<(), Fail> {
    let alloc = rt.alloc();
    check!(&rt; Resource::of_path(alloc, "/nodes/7/leave")? == Some(Resource::Leave(7)));
    check!(&rt; Resource::of_path(alloc, "/nodes/7/rescue")? == Some(Resource::Rescue(7)));
    check!(&rt; Resource::of_path(alloc, "/nodes")? == Some(Resource::Nodes));
    check!(&rt; Resource::of_path(alloc, "/node")?.is_none());
    check!(&rt; Resource::Stop.verb() == Verb::Act);
    check!(&rt; Resource::Pairs.verb() == Verb::Look);
    Ok(())
}

#[test]
fn queries_and_objects_are_read(rt: HostRuntime) -> Result<(), Fail> {
    let asked = PairsRequest {
        after: None,
        limit: 1000,
    };
    check!(&rt; PairsRequest::of_query(Some("limit=1000")) == Ok(asked));
    check!(&rt; Rows::of_query(None) == Ok(Rows::Present));
    check!(&rt; Rows::of_query(Some("all")) == Ok(Rows::All));
    check!(&rt; Rows::Present.has(Phase::Crashed) && !Rows::Present.has(Phase::Gone));
    let value = Value::from_str(rt.alloc(), "{\"via\":3}")?;
    let read = JoinRequest::of_object(&value);
    drop(value);
    let asked = JoinRequest {
        id: None,
        store: StoreKind::Tree,
        limit: None,
        via: Some(3),
    };
    check!(&rt; read == Ok(asked));
    Ok(())
}

fn health(alloc: Global) -> Option<Request<Bytes>> {
    let built = Request::get(alloc, "/health")
        .header("host", "localhost:80")
        .body(Bytes::new());
    built.ok()
}

/// What the site reads of it.
fn read_health(alloc: Global, site: &Site) -> Option<Result<OperatorCall, Refusal>> {
    let request = health(alloc)?;
    let read = site.call_of(alloc, &request);
    drop(request);
    Some(read)
}

#[test]
fn a_site_reads_calls(rt: HostRuntime) -> Result<(), Fail> {
    let alloc = rt.alloc();
    let site = Site::new(alloc, 80)?;
    check!(&rt; site.is_own_host(b"localhost:80") && !site.is_own_host(b"localhost"));
    check!(&rt; site.is_own_origin(b"http://127.0.0.1:80") && !site.is_own_origin(b"127.0.0.1:80"));
    let read = read_health(alloc, &site);
    drop(site);
    check!(&rt; read == Some(Ok(OperatorCall::Health)));
    Ok(())
}

#[test]
fn a_pair_is_a_line(rt: HostRuntime) -> Result<(), Fail> {
    let alloc = rt.alloc();
    let pairs = [Pair {
        key: b"k".to_vec(alloc)?,
        value: Vec::new(alloc),
    }];
    let text = pair_lines(alloc, &pairs);
    drop(pairs);
    let text = text?;
    let is_line = text.as_str() == "insert x:6b x:-\n";
    drop(text);
    check!(&rt; is_line);
    Ok(())
}
