//! Requests on the input, one a line.
ghost use Rattle.chord_map.specs.Checked.{IsRequest};

use crate::ask::copy::{CopyRead, first_undone};
use crate::ask::group::ask_group;
use crate::ask::line::read_line;
use crate::ask::link::ClientOptions;
use crate::ask::links::Links;
use crate::ask::question::Question;
use chord_app_text::{Fault, Finish, WordFault};
use chord_map::Request;
use std::alloc::Global;
use std::io::{self, Read, Write};
use std::net::{Net, TcpStream};
use std::time::Clock;

/// The most bytes of a line. The longest request has a few less.
const LINE_BYTES: usize = 16_384;

/// Connections, the requests that wait to be sent, and the line that is not whole yet.
#[derive(Drop)]
struct AskSession {
    alloc: Global,
    client_options: ClientOptions,
    links: Links,
    questions: Vec<Question>,
    line: Vec<u8>,
    /// How many lines were whole.
    lines: u64,
    /// How many requests got no reply.
    unanswered: u64,
    /// How much was read of a copy, if the input is one.
    copy: Option<CopyRead>,
}

/// Writes a line for each request that has an outcome. Gives how many have no reply.
fn write_outcomes<W: Write>(questions: &[Question], writer: &mut W) -> io::Result<u64> {
    let mut unanswered: u64 = 0;
    for question in questions {
        if let Some(outcome) = question.outcome() {
            writeln!(writer, "{outcome}")?;
            if !outcome.is_reply() {
                unanswered = unanswered.saturating_add(1);
            }
        }
    }
    writer.flush()?;
    Ok(unanswered)
}

impl AskSession {
    /// Opens a connection to the server.
    fn open<R: Net<Stream = TcpStream> + Clock>(
        rt: &R,
        alloc: Global,
        client_options: ClientOptions,
        copy: Option<CopyRead>,
    ) -> Result<AskSession, Finish> {
        let links = Links::open(rt, alloc, client_options)?;
        Ok(AskSession {
            alloc,
            client_options,
            links,
            questions: Vec::new(alloc),
            line: Vec::new(alloc),
            lines: 0,
            unanswered: 0,
            copy,
        })
    }

    /// Asks one request alone.
    fn ask<R: Net<Stream = TcpStream> + Clock, W: Write>(
        &mut self,
        rt: &R,
        request: Request,
        writer: &mut W,
    ) -> Result<Finish, Finish>
        requires { IsRequest request }
    {
        self.questions.push(Question::new(request))?;
        self.settle(rt, writer)?;
        Ok(self.end())
    }

    /// Writes the outcomes of the requests that were asked. Of a copy all of them have to be done.
    fn tell<W: Write>(&mut self, writer: &mut W) -> Result<(), Finish> {
        if self.copy.is_some() {
            let first = self.lines.saturating_sub(self.questions.len() as u64);
            return match first_undone(&self.questions, first.saturating_add(1)) {
                Some(fault) => Err(Finish::Fault(fault)),
                None => Ok(()),
            };
        }
        let unanswered = write_outcomes(&self.questions, writer)?;
        self.unanswered = self.unanswered.saturating_add(unanswered);
        Ok(())
    }

    /// Asks the waiting requests, and writes their outcomes. If no server is found, they are lost.
    fn settle<R: Net<Stream = TcpStream> + Clock, W: Write>(
        &mut self,
        rt: &R,
        writer: &mut W,
    ) -> Result<(), Finish> {
        let tries = self.client_options.tries;
        let asked = ask_group(rt, &mut self.links, &mut self.questions, tries);
        if asked.is_err() {
            for question in self.questions.iter_mut() {
                question.give_up();
            }
        }
        let told = self.tell(writer);
        self.questions.clear();
        if asked == Err(Finish::OutOfMemory) {
            return asked;
        }
        told?;
        asked
    }

    /// Asks the requests before a line that is none, and then answers that line's fault.
    fn refuse<R: Net<Stream = TcpStream> + Clock, W: Write>(
        &mut self,
        rt: &R,
        why: WordFault,
        writer: &mut W,
    ) -> Result<(), Finish> {
        self.settle(rt, writer)?;
        let line = self.lines.saturating_add(1);
        Err(Finish::Fault(Fault::Request { line, why }))
    }

    /// Asks the requests before a line that begins with `#`, and passes over that.
    fn pass_over<R: Net<Stream = TcpStream> + Clock, W: Write>(
        &mut self,
        rt: &R,
        writer: &mut W,
    ) -> Result<(), Finish> {
        self.settle(rt, writer)?;
        if let Some(copy) = self.copy {
            self.copy = Some(copy.with_comment(self.alloc, &self.line)?);
        }
        Ok(())
    }

    /// Takes in the request of a whole line.
    fn take_request<R: Net<Stream = TcpStream> + Clock, W: Write>(
        &mut self,
        rt: &R,
        writer: &mut W,
    ) -> Result<(), Finish> {
        match read_line(self.alloc, &self.line) {
            Ok(request) => self.questions.push(Question::new(request))?,
            Err(WordFault::OutOfMemory) => return Err(Finish::OutOfMemory),
            Err(why) => return self.refuse(rt, why, writer),
        }
        self.copy = self.copy.map(CopyRead::with_request);
        Ok(())
    }

    /// Takes in a whole line, and asks once as many requests wait as may be in flight.
    fn finish_line<R: Net<Stream = TcpStream> + Clock, W: Write>(
        &mut self,
        rt: &R,
        writer: &mut W,
    ) -> Result<(), Finish> {
        if self.line.starts_with(b"#") {
            self.pass_over(rt, writer)?;
        } else {
            self.take_request(rt, writer)?;
        }
        self.lines = self.lines.saturating_add(1);
        self.line.clear();
        if self.questions.len() as u64 >= self.client_options.window {
            self.settle(rt, writer)?;
        }
        Ok(())
    }

    /// Takes in bytes of the input, and asks each request whose line is whole; of a copy, as many
    /// together as may be in flight.
    fn take_in<R: Net<Stream = TcpStream> + Clock, W: Write>(
        &mut self,
        rt: &R,
        bytes: &[u8],
        writer: &mut W,
    ) -> Result<(), Finish> {
        for byte in bytes {
            if *byte == b'\n' {
                self.finish_line(rt, writer)?;
            } else if self.line.len() < LINE_BYTES {
                self.line.push(*byte)?;
            } else {
                return self.refuse(rt, WordFault::LineLong, writer);
            }
        }
        if self.copy.is_some() {
            return Ok(());
        }
        self.settle(rt, writer)
    }

    /// Takes in the end of the input. Of a copy a line without an end is none.
    fn finish_input<R: Net<Stream = TcpStream> + Clock, W: Write>(
        &mut self,
        rt: &R,
        writer: &mut W,
    ) -> Result<(), Finish> {
        if self.copy.is_some() && !self.line.is_empty() {
            self.copy = Some(CopyRead::NONE);
        } else if !self.line.is_empty() {
            self.finish_line(rt, writer)?;
        }
        self.settle(rt, writer)
    }

    /// Asks all requests on the input.
    fn ask_all<R: Net<Stream = TcpStream> + Clock, I: Read, W: Write>(
        &mut self,
        rt: &R,
        reader: &mut I,
        writer: &mut W,
    ) -> Result<Finish, Finish> {
        self.run(rt, reader, writer)?;
        match self.copy {
            Some(copy) => copy.end(self.alloc, writer),
            None => Ok(self.end()),
        }
    }

    /// Reads the input to its end, at most 4,096 bytes at a time.
    fn run<R: Net<Stream = TcpStream> + Clock, I: Read, W: Write>(
        &mut self,
        rt: &R,
        reader: &mut I,
        writer: &mut W,
    ) -> Result<(), Finish> {
        let mut piece = [0u8; 4096];
        for _ in 0..u64::MAX {
            match reader.read(&mut piece) {
                Ok(0) => return self.finish_input(rt, writer),
                Ok(count) => self.take_in(rt, &piece[..count], writer)?,
                Err(_) => return Err(Finish::Fault(Fault::Read)),
            }
        }
        Err(Finish::Fault(Fault::Read))
    }

    /// How a session ends that had no other fault.
    fn end(&self) -> Finish {
        if self.unanswered == 0 {
            Finish::Done
        } else {
            Finish::Fault(Fault::Unanswered(self.unanswered))
        }
    }
}

/// Asks the requests on the input, one a line, and writes a line for each, or of a copy how many
/// there were.
fn ask_input<R: Net<Stream = TcpStream> + Clock, I: Read, W: Write>(
    rt: &R,
    alloc: Global,
    client_options: ClientOptions,
    copy: Option<CopyRead>,
    reader: &mut I,
    writer: &mut W,
) -> Result<Finish, Finish> {
    let mut session = AskSession::open(rt, alloc, client_options, copy)?;
    let asked = session.ask_all(rt, reader, writer);
    session.links.close();
    drop(session);
    asked
}

/// Asks the requests on the input, one a line, and writes a line for each.
pub fn ask_lines<R: Net<Stream = TcpStream> + Clock, I: Read, W: Write>(
    rt: &R,
    alloc: Global,
    client_options: ClientOptions,
    reader: &mut I,
    writer: &mut W,
) -> Result<Finish, Finish> {
    ask_input(rt, alloc, client_options, None, reader, writer)
}

/// Asks the requests of a copy, up to the first that is not done, and writes how many there were if
/// its last line tells the same number.
pub fn ask_copy<R: Net<Stream = TcpStream> + Clock, I: Read, W: Write>(
    rt: &R,
    alloc: Global,
    client_options: ClientOptions,
    reader: &mut I,
    writer: &mut W,
) -> Result<Finish, Finish> {
    let copy = Some(CopyRead::NONE);
    ask_input(rt, alloc, client_options, copy, reader, writer)
}

/// Asks one request, and writes its line.
pub fn ask_one<R: Net<Stream = TcpStream> + Clock, W: Write>(
    rt: &R,
    alloc: Global,
    client_options: ClientOptions,
    request: Request,
    writer: &mut W,
) -> Result<Finish, Finish>
    requires { IsRequest request }
{
    match AskSession::open(rt, alloc, client_options, None) {
        Ok(mut session) => {
            let asked = session.ask(rt, request, writer);
            session.links.close();
            drop(session);
            asked
        }
        Err(finish) => {
            drop(request);
            Err(finish)
        }
    }
}
