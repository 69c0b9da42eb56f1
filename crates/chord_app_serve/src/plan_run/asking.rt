//! What the callers of a plan's run ask, and what they are answered.
ghost use Rattle.std.specs.Prelude.{◌≡◌, ◌++◌, [], ◌∷◌, IfOk, OnOk};
ghost use Rattle.chord_app_serve.specs.Together.{AreAnswers, AreOf, AskedIs, NextIs, TookFirst, callers_in, requests_of};

use chord_app_plan::PlanAsk;
use chord_app_text::{Finish, ReplyText};
use chord_caller::SubmitFault;
use chord_live::{OpenCaller, RingClient};
use chord_live_ring::{OpenClientFault, Ring};
use chord_live_types::{AskFault, BeginFault, WaitFault};
use chord_map::Reply;
use chord_store::EntryStore;
use chord_table::{CallerSeat, Naming};
use std::alloc::Global;
use std::fmt;
use std::marker::Model;
use std::sync::Wait;
use std::time::Clock;

/// How an ask ended.
#[derive(Debug, Drop)]
pub enum AskResult {
    Reply(Reply),
    Full,
    NoAnswer,
}

/// The words of a line of `run`: the reply, `full` or `noanswer`.
impl fmt::Display for AskResult {
    fn fmt<W: fmt::Write>(&self, f: &mut fmt::Formatter<W>) -> fmt::Result {
        match self {
            AskResult::Reply(reply) => {
                let reply = ReplyText(reply);
                write!(f, "{reply}")
            }
            AskResult::Full => f.write_str("full"),
            AskResult::NoAnswer => f.write_str("noanswer"),
        }
    }
}

/// How the asks of one caller ended, in order.
#[derive(Debug, Drop)]
pub struct AskResults {
    list: Vec<AskResult>,
}

impl Model for AskResults {
    ghost use Rattle.std.specs.Prelude.{List};
    ghost use Rattle.chord_app_serve.specs.declared.plan_run.asking.AskResult.{AskResult};

    ghost Value = { List AskResult };

    ghost view = { λ results. results.list.items };
}

impl AskResults {
    /// No results.
    pub fn new(alloc: Global) -> AskResults
        ensures { result ≡ [] }
    {
        AskResults {
            list: Vec::new(alloc),
        }
    }

    /// Adds the next one.
    fn push(&mut self, asked: AskResult) -> Result<(), Finish>
        ensures { OnOk result (self.new ≡ self.old ++ asked ∷ []) }
    {
        self.list.push(asked)?;
        Ok(())
    }

    /// The results, in order.
    pub fn as_slice(&self) -> &[AskResult]
        ensures { result.now ≡ self.now }
    {
        self.list.as_slice()
    }
}

/// How the asks of one caller ended, and that caller. There is none if none could be opened.
#[derive(Drop)]
pub struct CallerAnswers<J: Naming> {
    pub results: AskResults,
    pub caller: Option<CallerSeat<J>>,
    ghost are: { AreOf (callers_in caller) results },
}

/// A client that has asked nothing yet.
#[derive(Drop)]
pub struct FreshClient<'a, J: Naming, S: EntryStore> {
    client: RingClient<'a, J, S>,
    ghost fresh: { client.caller.mine ≡ [] },
}

impl<'a, J: Naming, S: EntryStore> FreshClient<'a, J, S> {
    /// The next client of the ring; none if it has no number left for one.
    pub fn open(rt: &impl Wait, ring: &'a Ring<J, S>) -> Result<Option<Self>, Finish> {
        match ring.open_client(rt, 1) {
            Ok(client) => Ok(Some(FreshClient { client })),
            Err(OpenClientFault::Memory) => Err(Finish::OutOfMemory),
            Err(_) => Ok(None),
        }
    }
}

/// What the thread of one caller gives back.
pub type Answers<J> = Result<CallerAnswers<J>, Finish>;

/// Asks one request of the plan.
fn ask_once<J: Naming, S: EntryStore, R: Wait + Clock>(
    rt: &R,
    client: &mut RingClient<'_, J, S>,
    ask: &PlanAsk,
) -> Result<AskResult, Finish>
    ensures { IfOk result (λ asked. AskedIs ask.now.request client.old.caller asked client.new.caller) }
{
    let request = ask.request.try_copy()?;
    match client.call(rt, ask.via as u64, request) {
        Ok(reply) => Ok(AskResult::Reply(reply)),
        Err(AskFault::Wait(WaitFault::Memory))
        | Err(AskFault::Begin(BeginFault::Submit(SubmitFault::Memory))) => Err(Finish::OutOfMemory),
        Err(AskFault::Wait(WaitFault::Full)) => Ok(AskResult::Full),
        Err(_) => Ok(AskResult::NoAnswer),
    }
}

/// Asks the next request of the plan, if it is this caller's. Says whether to go on: a reply came,
/// or nothing was asked.
fn ask_next<J: Naming, S: EntryStore, R: Wait + Clock>(
    rt: &R,
    client: &mut RingClient<'_, J, S>,
    number: usize,
    ask: &PlanAsk,
    results: &mut AskResults,
) -> Result<bool, Finish>
    requires { AreAnswers client.old.caller results.old }
    ensures answers { OnOk result (AreAnswers client.new.caller results.new) }
    ensures next { IfOk result (λ goes_on. NextIs (requests_of number (ask.now ∷ [])) client.old.caller goes_on client.new.caller) }
{
    if ask.caller != number {
        return Ok(true);
    }
    let asked = ask_once(rt, client, ask)?;
    let goes_on = matches!(&asked, AskResult::Reply(_));
    results.push(asked)?;
    Ok(goes_on)
}

/// Asks the plan's requests of one caller in order, until one gets no reply.
fn ask_each<J: Naming, S: EntryStore, R: Wait + Clock>(
    rt: &R,
    client: &mut RingClient<'_, J, S>,
    number: usize,
    asks: &[PlanAsk],
    results: &mut AskResults,
) -> Result<(), Finish>
    requires fresh { client.old.caller.mine ≡ [] }
    requires none { results.old ≡ [] }
    ensures answers { OnOk result (AreAnswers client.new.caller results.new) }
    ensures first { OnOk result (TookFirst (requests_of number asks.now) client.new.caller) }
{
    for ask in asks {
        if !ask_next(rt, client, number, ask, results)? {
            return Ok(());
        }
    }
    Ok(())
}

/// Asks the plan's requests of one caller, by this client, and gives how they ended.
pub fn ask_in_turn<J: Naming, S: EntryStore, R: Wait + Clock>(
    rt: &R,
    alloc: Global,
    opened: Option<FreshClient<'_, J, S>>,
    number: usize,
    asks: &[PlanAsk],
) -> Answers<J> {
    let mut results = AskResults::new(alloc);
    let Some(FreshClient { mut client }) = opened else {
        return Ok(CallerAnswers {
            results,
            caller: None,
        });
    };
    ask_each(rt, &mut client, number, asks, &mut results)?;
    Ok(CallerAnswers {
        results,
        caller: Some(client.into_seat()),
    })
}
