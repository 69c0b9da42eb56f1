//! A server of sessions over loopback, one connection after another.

use chord_app_text::{GrammarFault, LineFault, Words};
use chord_map::Bytes;
use chord_serve::{
    ClientSession, FrameProtocol, KeptSessions, Parted, ReadSize, drive, tell_no_session,
    tell_opened, tell_session_known,
};
use chord_serve_testkit::{Cut, MapAsker, greeted};
use chord_wire::{Opening, SessionFrames, Token};
use std::alloc::Global;
use std::io::{self, Read, Write};
use std::net::{TcpListener, TcpStream};

/// What the server does with a connection.
#[derive(Drop)]
pub enum Visit {
    /// Serves it until it has written this number of bytes.
    Serve(usize),
    /// Drops the sessions that it keeps, and then serves it.
    Forget,
    /// Reads once, and answers with these bytes.
    Answer(Bytes),
    /// Reads this number of bytes, and answers with these.
    Hear(usize, Bytes),
}

impl Visit {
    /// `serve 30`, and 0 for any number of bytes; `forget`; `answer 0aff`, and `answer -` for no
    /// byte; `hear 27 0aff`.
    fn read(alloc: Global, words: &mut Words) -> Result<Visit, LineFault> {
        match words.word()? {
            "serve" => match words.number()? as usize {
                0 => Ok(Visit::Serve(usize::MAX)),
                most => Ok(Visit::Serve(most)),
            },
            "forget" => Ok(Visit::Forget),
            "answer" => Ok(Visit::Answer(words.bytes(alloc)?)),
            "hear" => {
                let count = words.number()? as usize;
                Ok(Visit::Hear(count, words.bytes(alloc)?))
            }
            _ => Err(GrammarFault::NoLine.into()),
        }
    }
}

/// All visits that are left on a line; `often` is 64 times `serve 0`.
pub fn visits(alloc: Global, words: &mut Words) -> Result<Vec<Visit>, LineFault> {
    let mut visits = Vec::new(alloc);
    let line = *words;
    let are_many = matches!(words.word(), Ok("often"));
    if !are_many {
        *words = line;
    }
    for _ in 0..64u64 {
        if are_many {
            visits.push(Visit::Serve(usize::MAX))?;
        } else if words.has_more() {
            visits.push(Visit::read(alloc, words)?)?;
        }
    }
    Ok(visits)
}

#[derive(Drop)]
pub struct SmallServer {
    alloc: Global,
    kept: KeptSessions<MapAsker>,
    /// How many sessions were closed.
    pub closed: usize,
    /// How many requests the askers of closed sessions were asked.
    pub asked: usize,
    /// What was heard of a client.
    pub heard: Vec<u8>,
}

impl SmallServer {
    pub fn new(alloc: Global) -> SmallServer {
        SmallServer {
            alloc,
            kept: KeptSessions::new(alloc),
            closed: 0,
            asked: 0,
            heard: Vec::new(alloc),
        }
    }

    pub fn kept(&self) -> usize {
        self.kept.len()
    }

    /// The session that is opened. The client is told why there is none.
    fn open<W: Write>(
        &mut self,
        writer: &mut W,
        opening: Opening,
    ) -> Option<ClientSession<MapAsker>> {
        if opening.resumes {
            let client = self.kept.take(opening.token);
            if client.is_none() {
                drop(tell_no_session(self.alloc, writer));
            }
            return client;
        }
        if self.kept.knows(opening.token) {
            drop(tell_session_known(self.alloc, writer));
            return None;
        }
        Some(ClientSession::new(self.alloc, MapAsker::new(self.alloc)))
    }

    /// Keeps what a connection left of its session.
    fn part(&mut self, token: Token, left: Parted<MapAsker>) {
        match left {
            Parted::Kept(client) => drop(self.kept.keep(token, 0, client)),
            Parted::Over(asker) => {
                self.closed = self.closed.saturating_add(1);
                self.asked = self.asked.saturating_add(asker.requests.len());
                drop(asker);
            }
        }
    }

    fn serve<R: Read, W: Write>(&mut self, reader: &mut R, writer: &mut W) {
        let mut frames = SessionFrames::new(self.alloc);
        let Some(opening) = greeted(reader, &mut frames, 1000) else {
            drop(frames);
            return;
        };
        let Some(client) = self.open(writer, opening) else {
            drop(frames);
            return;
        };
        if tell_opened(self.alloc, writer, &client).is_err() {
            drop(frames);
            self.part(opening.token, Parted::Kept(client));
            return;
        }
        let mut protocol = FrameProtocol::new(frames, client, true);
        let size = ReadSize::Small;
        let _ = drive(self.alloc, &mut protocol, reader, writer, size, 1_000_000);
        self.part(opening.token, protocol.into_parted());
    }

    fn visit(&mut self, stream: &TcpStream, visit: &Visit) -> io::Result<()> {
        let mut reader = stream;
        let mut writer = stream;
        match visit {
            Visit::Serve(most) => self.serve(&mut reader, &mut Cut::new(writer, *most)),
            Visit::Forget => {
                self.kept = KeptSessions::new(self.alloc);
                self.serve(&mut reader, &mut writer);
            }
            Visit::Answer(bytes) => {
                let mut piece = [0u8; 64];
                let _ = reader.read(&mut piece).is_ok();
                let _ = writer.write_all(bytes.as_slice()).is_ok();
            }
            Visit::Hear(count, bytes) => {
                self.heard = vec![in self.alloc; 0u8; *count]?;
                reader.read_exact(&mut self.heard)?;
                writer.write_all(bytes.as_slice())?;
            }
        }
        Ok(())
    }

    /// Accepts as many connections as there are visits, unless a session is closed before. From
    /// then on nobody can connect.
    pub fn run(&mut self, listener: TcpListener, visits: &[Visit]) -> io::Result<()> {
        for (visit, accepted) in visits.iter().zip(listener.incoming()) {
            let stream = accepted?;
            let visited = self.visit(&stream, visit);
            drop(stream);
            visited?;
            if self.closed != 0 {
                break;
            }
        }
        drop(listener);
        Ok(())
    }
}
