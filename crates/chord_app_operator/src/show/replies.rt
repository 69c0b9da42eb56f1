//! Answers as responses.
ghost use Rattle.std.specs.Prelude.{◌≡◌, codes, false, string_bytes, option_map, IsTrue, IfOk, OnOk, OnErr};
ghost use Rattle.http_header.specs.FieldValue.{is_visible_text};
ghost use Rattle.http_server.specs.Response.{IsBlank, IsResponse, fields_of};
ghost use Rattle.chord_app_operator.specs.Replies.{typed, type_in, body_in, text_type, metrics_type, IsPage, IsJson, IsState, IsRing, IsNode, IsRefused, IsPairs, IsFull};
ghost use Rattle.serde_json.specs.Written.{compact_text, has_float};
ghost use Rattle.serde_json.specs.View.{view};
ghost use Rattle.chord_app_operator.specs.Metrics.{metrics_text};
ghost use Rattle.chord_app_operator.specs.Words.{refusal_status};
ghost use Rattle.chord_app_operator.specs.Json.{id_hex, refused, node_named, holder_data, ring_data};
ghost use Rattle.chord_app_operator.specs.Lines.{node_deed, refusal_line};

use super::front_page::{FRONT_PAGE, PAGE_POLICY};
use super::holder_json::holder_value;
use super::inserts::pair_lines;
use super::json::id_text;
use super::members::{counts_value, put_word};
use super::sight_json::ring_text;
use super::table::ring_table;
use crate::operator::{Holder, PairsPage};
use crate::request::{Format, Refusal};
use crate::sight::RingSight;
use bytes::Bytes;
use chord_ident::Id;
use http::{HeaderName, HeaderValue, StatusCode};
use http_server::Response;
use serde_json::{Map, Value};
use std::alloc::{AllocError, Global};

// Sets the status, the type and the body.
fn fill(
    response: &mut Response,
    status: StatusCode,
    kind: &'static str,
    body: Bytes,
) -> Result<(), AllocError>
    requires blank { IsBlank response.old }
    requires visible { IsTrue (is_visible_text kind.now) }
    ensures { OnOk result (IsResponse status (typed kind.now) body response.new) }
{
    response.status = status;
    response.add_header(
        HeaderName::from_static("content-type"),
        HeaderValue::from_static(kind),
    )?;
    response.add_header(
        HeaderName::from_static("cache-control"),
        HeaderValue::from_static("no-store"),
    )?;
    response.body.push(body)
}

fn fill_text(response: &mut Response, status: StatusCode, text: String) -> Result<(), AllocError>
    requires blank { IsBlank response.old }
    ensures { OnOk result (IsResponse status (typed text_type) (string_bytes text) response.new) }
{
    fill(
        response,
        status,
        "text/plain; charset=utf-8",
        Bytes::from_string(text)?,
    )
}

// The value as the body. It has no float.
fn fill_json(
    alloc: Global,
    response: &mut Response,
    status: StatusCode,
    value: &Value,
) -> Result<(), AllocError>
    requires blank { IsBlank response.old }
    requires digits { has_float (view value.now) ≡ false }
    ensures { OnOk result (IsJson status (view value.now) response.new) }
{
    let text = value.to_string(alloc)?;
    fill(
        response,
        status,
        "application/json",
        Bytes::from_string(text)?,
    )
}

/// The page. It may load nothing, and no other page may show it in a frame.
pub(crate) fn show_page(response: &mut Response) -> Result<(), AllocError>
    requires { IsBlank response.old }
    ensures { OnOk result (IsPage response.new) }
{
    fill(
        response,
        StatusCode::OK,
        "text/html; charset=utf-8",
        Bytes::from_static(FRONT_PAGE.as_bytes()),
    )?;
    response.add_header(
        HeaderName::from_static("content-security-policy"),
        HeaderValue::from_static(PAGE_POLICY),
    )
}

// The ring as JSON.
fn show_ring_json(
    alloc: Global,
    sight: &RingSight,
    response: &mut Response,
) -> Result<(), AllocError>
    requires { IsBlank response.old }
    ensures { OnOk result (IsJson 200 (ring_data sight.now) response.new) }
{
    let text = ring_text(alloc, sight)?;
    fill(
        response,
        StatusCode::OK,
        "application/json",
        Bytes::from_string(text)?,
    )
}

/// The ring.
pub(crate) fn show_ring(
    alloc: Global,
    format: Format,
    sight: &RingSight,
    response: &mut Response,
) -> Result<(), AllocError>
    requires { IsBlank response.old }
    ensures { OnOk result (IsRing format sight.now response.new) }
{
    match format {
        Format::Json => show_ring_json(alloc, sight, response),
        Format::Text => fill_text(response, StatusCode::OK, ring_table(alloc, sight)?),
    }
}

/// That the server can serve, or the reason why not.
pub(crate) fn show_state(
    reason: Option<&'static str>,
    response: &mut Response,
) -> Result<(), AllocError>
    requires { IsBlank response.old }
    ensures { OnOk result (IsState (option_map (λ text. text.now) reason.entry) response.new) }
{
    let (status, text) = match reason {
        None => (StatusCode::OK, "ok\n"),
        Some(reason) => (StatusCode::SERVICE_UNAVAILABLE, reason),
    };
    fill(
        response,
        status,
        "text/plain; charset=utf-8",
        Bytes::from_static(text.as_bytes()),
    )
}

// The number of a node.
fn show_number(
    alloc: Global,
    status: StatusCode,
    node: u64,
    response: &mut Response,
) -> Result<(), AllocError>
    requires { IsBlank response.old }
    ensures { OnOk result (IsJson status (node_named node) response.new) }
{
    let value = counts_value(alloc, &[("node", node)])?;
    let shown = fill_json(alloc, response, status, &value);
    drop(value);
    shown
}

fn node_deed(alloc: Global, node: u64, deed: &str) -> Result<String, AllocError>
    ensures { IfOk result (λ line. string_bytes line ≡ node_deed node deed.now) }
{
    format!(in alloc; "node {node} {deed}\n")
}

/// What was done to a node.
pub(crate) fn show_node(
    alloc: Global,
    format: Format,
    status: StatusCode,
    node: u64,
    deed: &str,
    response: &mut Response,
) -> Result<(), AllocError>
    requires { IsBlank response.old }
    ensures { OnOk result (IsNode format status node deed.now response.new) }
{
    match format {
        Format::Json => show_number(alloc, status, node, response),
        Format::Text => fill_text(response, status, node_deed(alloc, node, deed)?),
    }
}

/// The holder of an identifier.
pub(crate) fn show_holder(
    alloc: Global,
    id: Id,
    holder: Holder,
    response: &mut Response,
) -> Result<(), AllocError>
    requires { IsBlank response.old }
    ensures { OnOk result (IsJson 200 (holder_data id holder) response.new) }
{
    let value = holder_value(alloc, id, holder)?;
    let shown = fill_json(alloc, response, StatusCode::OK, &value);
    drop(value);
    shown
}

// An identifier as the value of a field.
fn id_field(alloc: Global, id: Id) -> Result<HeaderValue, AllocError>
    ensures { IfOk result (λ value. value.bytes ≡ id_hex id) }
{
    match HeaderValue::from_string(id_text(alloc, id)?) {
        Ok(value) => Ok(value),
        Err(_) => Err(AllocError),
    }
}

/// Pairs, who holds the first identifier, and the one to go on from.
pub(crate) fn show_pairs(
    alloc: Global,
    page: &PairsPage,
    response: &mut Response,
) -> Result<(), AllocError>
    requires { IsBlank response.old }
    ensures { OnOk result (IsPairs page.now response.new) }
{
    fill_text(response, StatusCode::OK, pair_lines(alloc, &page.pairs)?)?;
    response.add_header(
        HeaderName::from_static("chord-page"),
        HeaderValue::from_static(page.state.word()),
    )?;
    match page.next {
        Some(next) => response.add_header(
            HeaderName::from_static("chord-next"),
            id_field(alloc, next)?,
        ),
        None => Ok(()),
    }
}

/// The server ends soon.
pub(crate) fn show_stopping(response: &mut Response) -> Result<(), AllocError>
    requires { IsBlank response.old }
    ensures { OnOk result (IsResponse 202 (typed text_type) (codes "the server stops\n") response.new) }
{
    fill(
        response,
        StatusCode::ACCEPTED,
        "text/plain; charset=utf-8",
        Bytes::from_static(b"the server stops\n"),
    )
}

// The name of a refusal.
fn refused_value(alloc: Global, refusal: Refusal) -> Result<Value, AllocError>
    ensures { IfOk result (λ value. view value ≡ refused refusal) }
{
    let mut members = Map::new(alloc);
    put_word(alloc, "refused", refusal.name(), &mut members)?;
    Ok(Value::Object(members))
}

fn refusal_line(alloc: Global, refusal: Refusal) -> Result<String, AllocError>
    ensures { IfOk result (λ line. string_bytes line ≡ refusal_line refusal) }
{
    let name = refusal.name();
    format!(in alloc; "refused {name}\n")
}

// The name of a refusal as JSON.
fn fill_name(alloc: Global, refusal: Refusal, response: &mut Response) -> Result<(), AllocError>
    requires { IsBlank response.old }
    ensures { OnOk result (IsJson (refusal_status refusal) (refused refusal) response.new) }
{
    let value = refused_value(alloc, refusal)?;
    let shown = fill_json(alloc, response, refusal.status(), &value);
    drop(value);
    shown
}

// The name of a refusal as the body.
fn fill_refused(
    alloc: Global,
    format: Format,
    refusal: Refusal,
    response: &mut Response,
) -> Result<(), AllocError>
    requires { IsBlank response.old }
    ensures { OnOk result (IsResponse (refusal_status refusal) (typed (type_in format)) (body_in format (refused refusal) (refusal_line refusal)) response.new) }
{
    match format {
        Format::Json => fill_name(alloc, refusal, response),
        Format::Text => fill_text(response, refusal.status(), refusal_line(alloc, refusal)?),
    }
}

/// Why the request is refused.
pub(crate) fn refuse(
    alloc: Global,
    format: Format,
    refusal: Refusal,
    response: &mut Response,
) -> Result<(), AllocError>
    requires { IsBlank response.old }
    ensures { OnOk result (IsRefused format refusal response.new) }
{
    fill_refused(alloc, format, refusal, response)?;
    match refusal {
        Refusal::WrongMethod(verb) => response.add_header(
            HeaderName::from_static("allow"),
            HeaderValue::from_static(verb.allowed_text()),
        ),
        _ => Ok(()),
    }
}

/// Memory ran out while an answer was made: in its place a response without a body.
pub(crate) fn or_full(outcome: Result<(), AllocError>, response: &mut Response)
    ensures ok { OnOk outcome (response.new ≡ response.old) }
    ensures err { OnErr outcome (IsFull response.new) }
{
    if outcome.is_err() {
        response.clear();
        response.status = StatusCode::INSUFFICIENT_STORAGE;
    }
}

/// The ring in Prometheus's text format.
pub(crate) fn show_metrics(
    alloc: Global,
    sight: &RingSight,
    response: &mut Response,
) -> Result<(), AllocError>
    requires { IsBlank response.old }
    ensures { OnOk result (IsResponse 200 (typed metrics_type) (metrics_text sight.now) response.new) }
{
    let text = super::metrics::metrics_text(alloc, sight)?;
    fill(
        response,
        StatusCode::OK,
        "text/plain; version=0.0.4; charset=utf-8",
        Bytes::from_string(text)?,
    )
}
