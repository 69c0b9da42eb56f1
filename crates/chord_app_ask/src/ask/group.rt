//! Requests that are sent together.

use crate::ask::link::{Link, LinkState, READS};
use crate::ask::links::Links;
use crate::ask::outcome::AskOutcome;
use crate::ask::question::Question;
use chord_app_text::Finish;
use chord_serve::{AgainFault, CallFault, ReceiveFault};
use chord_wire::Answer;
use std::net::{Net, TcpStream};
use std::time::Clock;

/// Sends the open requests.
fn send_open(link: &mut Link, questions: &mut [Question]) -> Result<LinkState, Finish> {
    for question in questions.iter_mut() {
        let state = question.send(link)?;
        if state != LinkState::Open {
            return Ok(state);
        }
    }
    Ok(LinkState::Open)
}

/// Gives the answer to the request of this number. Says whether to send that again.
fn hand_out(questions: &mut [Question], number: u64, answer: Answer, tries: u32) -> bool {
    for question in questions.iter_mut() {
        if question.has(number) {
            return question.take(answer, tries);
        }
    }
    false
}

/// Sends the frame of a number again.
fn send_again(link: &mut Link, number: u64) -> Result<LinkState, Finish> {
    let mut writer = &link.stream;
    match link.client.again(&mut writer, number) {
        Ok(()) => Ok(LinkState::Open),
        Err(AgainFault::Memory) => Err(Finish::OutOfMemory),
        Err(AgainFault::NotRefused) | Err(AgainFault::Write) => Ok(LinkState::Broken),
    }
}

/// Receives one answer, and sends its request again if it is due.
fn receive_one(
    link: &mut Link,
    questions: &mut [Question],
    tries: u32,
) -> Result<LinkState, Finish> {
    let mut reader = &link.stream;
    match link.client.receive(&mut reader, READS) {
        Ok((number, answer)) => {
            link.note_answer();
            if hand_out(questions, number, answer, tries) {
                send_again(link, number)
            } else {
                Ok(LinkState::Open)
            }
        }
        Err(ReceiveFault::Call(CallFault::Memory)) => Err(Finish::OutOfMemory),
        Err(ReceiveFault::CallersSpent) => Ok(LinkState::CallersSpent),
        Err(_) => Ok(LinkState::Broken),
    }
}

/// Receives all answers that are awaited. Each request is sent at most `tries` times.
fn receive_all(
    link: &mut Link,
    questions: &mut [Question],
    tries: u32,
) -> Result<LinkState, Finish> {
    let most = (questions.len() as u64).saturating_mul(tries as u64);
    for _ in 0..most {
        if link.client.in_flight() == 0 {
            break;
        }
        let state = receive_one(link, questions, tries)?;
        if state != LinkState::Open {
            return Ok(state);
        }
    }
    Ok(LinkState::Open)
}

/// Sends the open requests, and receives all their answers; where sending failed, those that came
/// before.
fn ask_over(link: &mut Link, questions: &mut [Question], tries: u32) -> Result<LinkState, Finish> {
    if link.is_spent() {
        return Ok(LinkState::CallersSpent);
    }
    let sent = send_open(link, questions)?;
    match receive_all(link, questions, tries)? {
        LinkState::Open => Ok(sent),
        received => Ok(received),
    }
}

/// Asks the open requests. Where the connection is lost, its session goes on over another one: at
/// most three tries in a row that bring no answer, and there are no more answers than requests that
/// are sent.
fn ask_in_session<R: Net<Stream = TcpStream> + Clock>(
    rt: &R,
    link: &mut Link,
    questions: &mut [Question],
    tries: u32,
) -> Result<LinkState, Finish> {
    let answers = (questions.len() as u64).saturating_mul(tries as u64);
    for _ in 0..answers.saturating_add(1).saturating_mul(4) {
        let state = ask_over(link, questions, tries)?;
        if state != LinkState::Broken || !link.resume(rt)? {
            return Ok(state);
        }
    }
    Ok(LinkState::Broken)
}

/// The session of these questions ended so.
fn end_questions(ended: LinkState, questions: &mut [Question], tries: u32) {
    for question in questions.iter_mut() {
        match ended {
            LinkState::CallersSpent => question.refuse(),
            LinkState::Open | LinkState::Broken => question.lose(tries),
        }
    }
}

/// Asks the open requests in one session, which stays open for later unless it ended.
fn ask_round<R: Net<Stream = TcpStream> + Clock>(
    rt: &R,
    links: &mut Links,
    questions: &mut [Question],
    tries: u32,
) -> Result<(), Finish> {
    let mut link = links.take(rt)?;
    let asked = ask_in_session(rt, &mut link, questions, tries);
    if asked == Ok(LinkState::Open) {
        links.keep(link);
        return Ok(());
    }
    link.close();
    end_questions(asked?, questions, tries);
    Ok(())
}

/// Whether each request has a reply.
fn are_replied(questions: &[Question]) -> bool {
    questions.iter().all(|question| question.outcome().is_some_and(AskOutcome::is_reply))
}

/// Asks until each request has an outcome, in a new session after one that ended. Closes the
/// session if a request in it has no reply, since later answers would wait behind that one.
pub fn ask_group<R: Net<Stream = TcpStream> + Clock>(
    rt: &R,
    links: &mut Links,
    questions: &mut [Question],
    tries: u32,
) -> Result<(), Finish> {
    let rounds = (questions.len() as u64).saturating_mul(tries as u64);
    for _ in 0..rounds {
        if !questions.iter().any(Question::is_open) {
            break;
        }
        ask_round(rt, links, questions, tries)?;
    }
    if !are_replied(questions) {
        links.close();
    }
    Ok(())
}
