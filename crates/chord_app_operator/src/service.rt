//! The service.
ghost use Rattle.std.specs.Prelude.{◌≡◌, IfOk, OnOk};
ghost use Rattle.http_server.specs.Response.{IsBlank};
ghost use Rattle.chord_app_operator.specs.declared.request.calls.OperatorCall.TheVariants as Call;
ghost use Rattle.chord_app_operator.specs.declared.request.format.Format.{Format};
ghost use Rattle.chord_app_operator.specs.Services.{OrFull, ShowsRing, ShowsMetrics, ShowsPairs, IsAnswered, IsDealtWith, IsServed};
ghost use Rattle.chord_app_operator.specs.Replies.{IsPage};
ghost use Rattle.chord_app_operator.specs.Rows.{ToldRows};

use crate::operator::{Operator, PairsPage};
use crate::request::{
    CrashRequest, Format, JoinRequest, OperatorCall, PairsRequest, Refusal, Rows, Site,
};
use crate::show::replies::{
    or_full, refuse, show_holder, show_metrics, show_node, show_page, show_pairs, show_ring,
    show_state, show_stopping,
};
use crate::sight::RingSight;
use bytes::Bytes;
use chord_ident::Id;
use http::{Request, StatusCode};
use http_server::{Response, Service};
use std::alloc::{AllocError, Global};

/// Answers the requests to an operator at a port. It asks the operator once for each call, and not
/// at all for a request that it refuses.
#[derive(Drop)]
pub struct OperatorService<O> {
    alloc: Global,
    site: Site,
    operator: O,
}

impl<O: Operator> OperatorService<O> {
    /// A service at this port on loopback.
    pub fn new(alloc: Global, port: u16, operator: O) -> Result<OperatorService<O>, AllocError>
    where
        O: Drop,
        ensures { IfOk result (λ service. (service.site ≡ port) × (service.operator ≡ operator)) }
    {
        let site = Site::new(alloc, port)?;
        Ok(OperatorService {
            alloc,
            site,
            operator,
        })
    }

    pub(crate) fn alloc(&self) -> Global
        ensures { result ≡ self.now.alloc }
    {
        self.alloc
    }

    /// The operator, back from its service.
    pub fn into_operator(self) -> O
        ensures { result ≡ self.operator }
    {
        let OperatorService { operator, .. } = self;
        operator
    }
}

fn page(response: &mut Response)
    requires { IsBlank response.old }
    ensures { OrFull (IsPage response.new) response.new }
{
    let shown = show_page(response);
    or_full(shown, response);
}

fn show_told_ring(
    alloc: Global,
    format: Format,
    told: &Result<RingSight, AllocError>,
    response: &mut Response,
) -> Result<(), AllocError>
    requires { IsBlank response.old }
    ensures { OnOk result (ShowsRing format told.now response.new) }
{
    match told {
        Ok(sight) => show_ring(alloc, format, sight, response),
        Err(_) => refuse(alloc, format, Refusal::Memory, response),
    }
}

fn show_told_metrics(
    alloc: Global,
    format: Format,
    told: &Result<RingSight, AllocError>,
    response: &mut Response,
) -> Result<(), AllocError>
    requires { IsBlank response.old }
    ensures { OnOk result (ShowsMetrics format told.now response.new) }
{
    match told {
        Ok(sight) => show_metrics(alloc, sight, response),
        Err(_) => refuse(alloc, format, Refusal::Memory, response),
    }
}

fn show_told_pairs(
    alloc: Global,
    format: Format,
    told: &Result<PairsPage, AllocError>,
    response: &mut Response,
) -> Result<(), AllocError>
    requires { IsBlank response.old }
    ensures { OnOk result (ShowsPairs format told.now response.new) }
{
    match told {
        Ok(page) => show_pairs(alloc, page, response),
        Err(_) => refuse(alloc, format, Refusal::Memory, response),
    }
}

// What was told of a ring, with these nodes alone.
fn with_rows(rows: Rows, told: Result<RingSight, AllocError>) -> Result<RingSight, AllocError>
    ensures { ToldRows rows told result }
{
    match told {
        Ok(sight) => {
            let mut kept = sight;
            kept.keep(rows);
            Ok(kept)
        }
        Err(refused) => Err(refused),
    }
}

fn ring<O: Operator>(
    alloc: Global,
    format: Format,
    operator: &mut O,
    rows: Rows,
    response: &mut Response,
)
    requires { IsBlank response.old }
    ensures { IsAnswered O.answers format (Call.Ring rows) operator.old response.new operator.new }
{
    let told = operator.sight(alloc);
    let kept = with_rows(rows, told);
    let shown = show_told_ring(alloc, format, &kept, response);
    drop(kept);
    or_full(shown, response);
}

fn metrics<O: Operator>(alloc: Global, format: Format, operator: &mut O, response: &mut Response)
    requires { IsBlank response.old }
    ensures { IsAnswered O.answers format Call.Metrics operator.old response.new operator.new }
{
    let told = operator.sight(alloc);
    let shown = show_told_metrics(alloc, format, &told, response);
    drop(told);
    or_full(shown, response);
}

fn health<O: Operator>(operator: &mut O, response: &mut Response)
    requires { IsBlank response.old }
    ensures { (format : Format) → IsAnswered O.answers format Call.Health operator.old response.new operator.new }
{
    let shown = show_state(operator.health().unhealthy(), response);
    or_full(shown, response);
}

fn ready<O: Operator>(operator: &mut O, response: &mut Response)
    requires { IsBlank response.old }
    ensures { (format : Format) → IsAnswered O.answers format Call.Ready operator.old response.new operator.new }
{
    let shown = show_state(operator.health().unready(), response);
    or_full(shown, response);
}

fn join<O: Operator>(
    alloc: Global,
    format: Format,
    operator: &mut O,
    request: JoinRequest,
    response: &mut Response,
)
    requires { IsBlank response.old }
    ensures { IsAnswered O.answers format (Call.Join request) operator.old response.new operator.new }
{
    let shown = match operator.join(request) {
        Ok(node) => show_node(alloc, format, StatusCode::CREATED, node, "joined", response),
        Err(refusal) => refuse(alloc, format, Refusal::Join(refusal), response),
    };
    or_full(shown, response);
}

fn leave<O: Operator>(
    alloc: Global,
    format: Format,
    operator: &mut O,
    node: u64,
    response: &mut Response,
)
    requires { IsBlank response.old }
    ensures { IsAnswered O.answers format (Call.Leave node) operator.old response.new operator.new }
{
    let shown = match operator.leave(node) {
        Ok(()) => show_node(
            alloc,
            format,
            StatusCode::ACCEPTED,
            node,
            "begins to leave",
            response,
        ),
        Err(refusal) => refuse(alloc, format, Refusal::Leave(refusal), response),
    };
    or_full(shown, response);
}

fn crash<O: Operator>(
    alloc: Global,
    format: Format,
    operator: &mut O,
    request: CrashRequest,
    response: &mut Response,
)
    requires { IsBlank response.old }
    ensures { IsAnswered O.answers format (Call.Crash request) operator.old response.new operator.new }
{
    let shown = match operator.crash(request) {
        Ok(()) => show_node(
            alloc,
            format,
            StatusCode::OK,
            request.node,
            "crashed",
            response,
        ),
        Err(refusal) => refuse(alloc, format, Refusal::Crash(refusal), response),
    };
    or_full(shown, response);
}

fn rescue<O: Operator>(
    alloc: Global,
    format: Format,
    operator: &mut O,
    node: u64,
    response: &mut Response,
)
    requires { IsBlank response.old }
    ensures { IsAnswered O.answers format (Call.Rescue node) operator.old response.new operator.new }
{
    let shown = match operator.rescue(node) {
        Ok(()) => show_node(
            alloc,
            format,
            StatusCode::ACCEPTED,
            node,
            "is being rescued",
            response,
        ),
        Err(refusal) => refuse(alloc, format, Refusal::Rescue(refusal), response),
    };
    or_full(shown, response);
}

fn holder<O: Operator>(alloc: Global, operator: &mut O, id: Id, response: &mut Response)
    requires { IsBlank response.old }
    ensures { (format : Format) → IsAnswered O.answers format (Call.Holder id) operator.old response.new operator.new }
{
    let shown = show_holder(alloc, id, operator.holder(id), response);
    or_full(shown, response);
}

fn pairs<O: Operator>(
    alloc: Global,
    format: Format,
    operator: &mut O,
    request: PairsRequest,
    response: &mut Response,
)
    requires { IsBlank response.old }
    ensures { IsAnswered O.answers format (Call.Pairs request) operator.old response.new operator.new }
{
    let told = operator.pairs(alloc, request);
    let shown = show_told_pairs(alloc, format, &told, response);
    drop(told);
    or_full(shown, response);
}

fn stop<O: Operator>(operator: &mut O, response: &mut Response)
    requires { IsBlank response.old }
    ensures { (format : Format) → IsAnswered O.answers format Call.Stop operator.old response.new operator.new }
{
    operator.stop();
    let shown = show_stopping(response);
    or_full(shown, response);
}

// Asks the operator the question of the call, once, and shows its answer.
fn answer<O: Operator>(
    alloc: Global,
    format: Format,
    operator: &mut O,
    call: OperatorCall,
    response: &mut Response,
)
    requires { IsBlank response.old }
    ensures { IsAnswered O.answers format call operator.old response.new operator.new }
{
    match call {
        OperatorCall::Page => page(response),
        OperatorCall::Ring(rows) => ring(alloc, format, operator, rows, response),
        OperatorCall::Metrics => metrics(alloc, format, operator, response),
        OperatorCall::Health => health(operator, response),
        OperatorCall::Ready => ready(operator, response),
        OperatorCall::Join(request) => join(alloc, format, operator, request, response),
        OperatorCall::Leave(node) => leave(alloc, format, operator, node, response),
        OperatorCall::Crash(request) => crash(alloc, format, operator, request, response),
        OperatorCall::Rescue(node) => rescue(alloc, format, operator, node, response),
        OperatorCall::Holder(id) => holder(alloc, operator, id, response),
        OperatorCall::Pairs(request) => pairs(alloc, format, operator, request, response),
        OperatorCall::Stop => stop(operator, response),
    }
}

// Answers a call, or says why the request is refused and asks nothing.
fn deal<O: Operator>(
    alloc: Global,
    format: Format,
    operator: &mut O,
    read: Result<OperatorCall, Refusal>,
    response: &mut Response,
)
    requires { IsBlank response.old }
    ensures { IsDealtWith O.answers format read operator.old response.new operator.new }
{
    match read {
        Ok(call) => answer(alloc, format, operator, call, response),
        Err(refusal) => {
            let shown = refuse(alloc, format, refusal, response);
            or_full(shown, response);
        }
    }
}

impl<O: Operator> Service for OperatorService<O> {
    ghost answers = { λ old request response new.
        (new.site ≡ old.site) × IsServed O.answers old.site old.operator request response new.operator };

    fn call(
        &mut self,
        request: &Request<Bytes>,
        response: &mut Response,
    ) -> Result<(), AllocError> {
        let read = self.site.call_of(self.alloc, request);
        deal(
            self.alloc,
            Format::of(request),
            &mut self.operator,
            read,
            response,
        );
        Ok(())
    }
}
