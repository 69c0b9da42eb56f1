//! What is sent to the server.
ghost use Rattle.std.specs.Prelude.{◌≡◌, false, IfOk, OnOk, option_map, string_bytes};
ghost use Rattle.serde_json.specs.View.{view, members_view};
ghost use Rattle.serde_json.specs.Written.{compact_text, has_float};
ghost use Rattle.chord_app_operator.specs.Json.{id_data};
ghost use Rattle.chord_app_ring.specs.Asked.{path_of, put_if, join_data, body_of, size_of, limits, request_by, request_of, path_behind, pairs_path, pairs_request};
ghost use Rattle.http1.specs.Client.{new_client};

use crate::command::RingCommand;
use chord_app_operator::{JoinRequest, PairsRequest, Rows, ToJson, id_text};
use http1::{BodySize, Client, Header};
use serde_json::{Map, Value, json, put};
use std::alloc::{AllocError, Global};

/// The path of a request.
pub fn request_path(alloc: Global, command: &RingCommand) -> Result<String, AllocError>
    ensures { IfOk result (λ path. string_bytes path ≡ path_of command.now) }
{
    match command {
        RingCommand::Show(Rows::Present) => String::from_str(alloc, "/ring"),
        RingCommand::Show(Rows::All) => String::from_str(alloc, "/ring?all"),
        RingCommand::Join(_) => String::from_str(alloc, "/nodes"),
        RingCommand::Leave(node) => format!(in alloc; "/nodes/{node}/leave"),
        RingCommand::Crash(request) => {
            let node = request.node;
            format!(in alloc; "/nodes/{node}/crash")
        }
        RingCommand::Rescue(node) => format!(in alloc; "/nodes/{node}/rescue"),
        RingCommand::Stop => String::from_str(alloc, "/stop"),
    }
}

// The identifier, if it is stated.
fn id_value(alloc: Global, request: &JoinRequest) -> Result<Option<Value>, AllocError>
    ensures { IfOk result (λ value. option_map view value ≡ option_map id_data request.now.id) }
{
    match request.id {
        Some(id) => Ok(Some(id.to_json(alloc)?)),
        None => Ok(None),
    }
}

// A member, if it is there.
fn put_if(
    members: &mut Map<String, Value>,
    alloc: Global,
    name: &str,
    value: Option<Value>,
) -> Result<(), AllocError>
    ensures { OnOk result (members_view members.new.entries ≡ put_if name.now (option_map view value) (members_view members.old.entries)) }
{
    match value {
        Some(value) => put(members, alloc, name, value),
        None => Ok(()),
    }
}

// The body of a join.
fn join_value(alloc: Global, request: &JoinRequest) -> Result<Value, AllocError>
    ensures { IfOk result (λ value. view value ≡ join_data request.now) }
{
    let mut members = Map::new(alloc);
    put_if(&mut members, alloc, "id", id_value(alloc, request)?)?;
    let store = Value::try_from_str(alloc, request.store.word())?;
    put(&mut members, alloc, "store", store)?;
    put_if(&mut members, alloc, "limit", request.limit.map(Value::from))?;
    put_if(&mut members, alloc, "via", request.via.map(Value::from))?;
    Ok(Value::Object(members))
}

fn value_text(alloc: Global, value: Value) -> Result<String, AllocError>
    requires { has_float (view value) ≡ false }
    ensures { IfOk result (λ text. string_bytes text ≡ compact_text (view value)) }
{
    let text = value.to_string(alloc);
    drop(value);
    text
}

/// The body of a request.
pub fn request_body(alloc: Global, command: &RingCommand) -> Result<String, AllocError>
    ensures { IfOk result (λ body. string_bytes body ≡ body_of command.now) }
{
    match command {
        RingCommand::Join(request) => value_text(alloc, join_value(alloc, request)?),
        RingCommand::Crash(request) if request.is_forced => value_text(
            alloc,
            json!(in alloc; {"force": true})?,
        ),
        _ => Ok(String::new(alloc)),
    }
}

fn body_size(command: &RingCommand, body: &str) -> BodySize
    requires { body.now ≡ body_of command.now }
    ensures { result ≡ size_of command.now }
{
    match command {
        RingCommand::Show(_) => BodySize::Empty,
        _ => BodySize::Known(body.len() as u64),
    }
}

// A request to the server with this port. Out of memory stands also for a head that HTTP/1.1 has
// not, which no call here makes.
fn write_request(
    client: &mut Client,
    port: u16,
    method: &str,
    path: String,
    size: BodySize,
    body: String,
) -> Result<Vec<u8>, AllocError>
    requires { client.old ≡ new_client limits }
    ensures { IfOk result (λ request. request.items ≡ request_by port method.now (string_bytes path) size (string_bytes body)) }
{
    let alloc = *path.allocator();
    let host = format!(in alloc; "127.0.0.1:{port}")?;
    let headers = [
        Header {
            name: b"host",
            value: host.as_bytes(),
        },
        Header {
            name: b"accept",
            value: b"text/plain",
        },
    ];
    let mut request = Vec::new(alloc);
    let written = client.write_request(
        &mut request,
        method.as_bytes(),
        path.as_bytes(),
        &headers,
        size,
    );
    if written.is_err() {
        return Err(AllocError);
    }
    request.extend_from_slice(body.as_bytes())?;
    Ok(request)
}

/// The request for a command, to the server with this port.
pub fn request_bytes(
    alloc: Global,
    client: &mut Client,
    port: u16,
    command: &RingCommand,
) -> Result<Vec<u8>, AllocError>
    requires { client.old ≡ new_client limits }
    ensures { IfOk result (λ request. request.items ≡ request_of port command.now) }
{
    let path = request_path(alloc, command)?;
    let body = request_body(alloc, command)?;
    let size = body_size(command, &body);
    write_request(client, port, command.method(), path, size, body)
}

fn path_behind(alloc: Global, after: &str, limit: u64) -> Result<String, AllocError>
    ensures { IfOk result (λ path. string_bytes path ≡ path_behind after.now limit) }
{
    format!(in alloc; "/pairs?after={after}&limit={limit}")
}

/// The path of a request for a page of pairs.
pub fn pairs_path(alloc: Global, request: PairsRequest) -> Result<String, AllocError>
    ensures { IfOk result (λ path. string_bytes path ≡ pairs_path request) }
{
    let limit = request.limit;
    match request.after {
        Some(after) => path_behind(alloc, &id_text(alloc, after)?, limit),
        None => format!(in alloc; "/pairs?limit={limit}"),
    }
}

/// The request for a page of pairs, to the server with this port.
pub fn pairs_bytes(
    alloc: Global,
    client: &mut Client,
    port: u16,
    request: PairsRequest,
) -> Result<Vec<u8>, AllocError>
    requires { client.old ≡ new_client limits }
    ensures { IfOk result (λ bytes. bytes.items ≡ pairs_request port request) }
{
    let path = pairs_path(alloc, request)?;
    write_request(
        client,
        port,
        "GET",
        path,
        BodySize::Empty,
        String::new(alloc),
    )
}
