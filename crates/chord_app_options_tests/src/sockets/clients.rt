//! The connections that are open, over loopback: how they are counted, waited for and ended.
//!
//! - `add 3`: a connection is opened and added under this number.
//! - `forget 3`, `end 3`, `end-all`: one is removed, one is ended, or all are.
//! - `read 3`: what its client reads of one byte, or why it reads nothing within 10 ms.
//! - `carry 3`: its client writes `abc` and reads `xy`; what came, and how many bytes were counted.
//!
//! Behind `; ` stands how many are open, and whether all are told to end.

use chord_app_sockets::Clients;
use chord_app_text::{GrammarFault, LineFault, Words};
use chord_testkit::{Subject, Text, follow_on, name_of};
use std::alloc::Global;
use std::io::{self, Read, Write};
use std::net::{Net, TcpListener, TcpStream};
use std::str::from_utf8;
use std::sync::{Arc, Wait};
use std::test::Fail;
use std::thread;
use std::thread::Threads;
use std::time::{Clock, Duration};

/// Both ends of a connection, and its number.
#[derive(Drop)]
struct Ends {
    number: u64,
    client: TcpStream,
    server: Arc<TcpStream>,
}

#[derive(Drop)]
struct Open<'a, R> {
    rt: &'a R,
    alloc: Global,
    clients: Clients,
    ends: Vec<Ends>,
}

impl<R: Wait + Clock + Net<Listener = TcpListener, Stream = TcpStream>> Subject for Open<'_, R> {
    fn act(&mut self, words: &mut Words) -> Result<Text, LineFault> {
        let deed = words.word()?;
        if deed == "end-all" {
            self.clients.end_all(self.rt);
            return Ok(Text::of("Done"));
        }
        let number = words.number()?;
        match deed {
            "add" => self.add(number),
            "forget" => {
                self.clients.forget(self.rt, number);
                Ok(Text::of("Done"))
            }
            "end" => {
                self.clients.end_one(self.rt, number);
                Ok(Text::of("Done"))
            }
            "read" => Ok(self.read(number)),
            "carry" => Ok(self.carry(number)),
            _ => Err(GrammarFault::NoLine.into()),
        }
    }

    fn show(&self) -> Text {
        let count = self.clients.count(self.rt);
        if self.clients.are_told_to_end() {
            Text::of(format_args!("open {count}, told to end"))
        } else {
            Text::of(format_args!("open {count}"))
        }
    }
}

/// Both ends of a new connection, whose client reads for 10 ms.
fn connect<R: Net<Listener = TcpListener, Stream = TcpStream>>(
    rt: &R,
) -> io::Result<(TcpStream, TcpStream)> {
    let listener = TcpListener::bind(rt, "127.0.0.1:0")?;
    let client = TcpStream::connect(rt, listener.local_addr()?)?;
    let (server, _) = listener.accept()?;
    drop(listener);
    client.set_read_timeout(Some(Duration::from_millis(10)))?;
    Ok((client, server))
}

impl<R: Wait + Clock + Net<Listener = TcpListener, Stream = TcpStream>> Open<'_, R> {
    fn add(&mut self, number: u64) -> Result<Text, LineFault> {
        match connect(self.rt) {
            Ok((client, server)) => {
                let server = Arc::new(self.alloc, server)?;
                let added = self.clients.add(self.rt, number, &server);
                self.ends.push(Ends {
                    number,
                    client,
                    server,
                })?;
                Ok(name_of(&added))
            }
            Err(fault) => Ok(name_of(&fault.kind())),
        }
    }

    fn read(&self, number: u64) -> Text {
        let mut byte = [0u8; 1];
        match self.ends.iter().find(|ends| ends.number == number) {
            Some(ends) => {
                let mut client = &ends.client;
                name_of(&client.read(&mut byte).map_err(|error| error.kind()))
            }
            None => Text::of("no connection"),
        }
    }

    fn carry(&self, number: u64) -> Text {
        let Some(ends) = self.ends.iter().find(|ends| ends.number == number) else {
            return Text::of("no connection");
        };
        match carried(&self.clients, &ends.server, &ends.client) {
            Ok(carried) => carried,
            Err(fault) => name_of(&fault.kind()),
        }
    }
}

/// What came of a client, what went to it, and how many bytes were counted.
fn carried(clients: &Clients, server: &TcpStream, mut client: &TcpStream) -> io::Result<Text> {
    let mut counted = clients.counted(server);
    let mut came = [0u8; 3];
    let mut went = [0u8; 2];
    client.write_all(b"abc")?;
    counted.read_exact(&mut came)?;
    counted.write_all(b"xy")?;
    counted.flush()?;
    client.read_exact(&mut went)?;
    let came = from_utf8(&came).unwrap_or("?");
    let went = from_utf8(&went).unwrap_or("?");
    let read = clients.bytes_read();
    let written = clients.bytes_written();
    Ok(Text::of(format_args!("{came} {went}, read {read}, written {written}")))
}

const SCRIPT: &str = "
# connections are counted, and removed by their numbers
add 3 > Ok(()); open 1
add 5 > Ok(()); open 2
forget 4 > Done
forget 3 > Done; open 1
forget 3 > Done
# bytes of a client are counted
carry 5 > abc xy, read 3, written 2
forget 5 > Done; open 0
# one of two is ended
add 6 > Ok(()); open 1
add 7 > Ok(()); open 2
end 7 > Done
read 6 > Err(WouldBlock)
read 7 > Ok(0)
forget 7 > Done; open 1
# those that stay open are ended once all are told to end
read 6 > Err(WouldBlock)
end-all > Done; open 1, told to end
read 6 > Ok(0)
forget 6 > Done; open 0, told to end
";

#[test]
fn open_connections(rt: HostRuntime) -> Result<(), Fail> {
    let mut open = Open {
        rt: &rt,
        alloc: rt.alloc(),
        clients: Clients::new(rt.alloc()),
        ends: Vec::new(rt.alloc()),
    };
    follow_on(&mut open, SCRIPT)
}

/// Removes connections 0 and 1, each after a while.
fn remove_both<R: Wait + Clock>(rt: &R, clients: &Clients) {
    for number in 0..2 {
        thread::sleep(rt, Duration::from_millis(50));
        clients.forget(rt, number);
    }
}

/// How many connections are open once all were waited for, which another thread removes.
fn left_open<R: Threads + Wait + Clock + Net<Listener = TcpListener, Stream = TcpStream> + Sync>(
    rt: &R,
    alloc: Global,
) -> io::Result<u64> {
    let (_, first) = connect(rt)?;
    let (_, second) = connect(rt)?;
    let first = Arc::new(alloc, first)?;
    let second = Arc::new(alloc, second)?;
    let clients = Clients::new(alloc);
    clients.add(rt, 0, &first)?;
    clients.add(rt, 1, &second)?;
    let (left, ()) = thread::join(
        rt,
        || {
            clients.wait_for_all(rt);
            clients.count(rt)
        },
        || remove_both(rt, &clients),
    );
    drop(clients);
    drop(second);
    drop(first);
    Ok(left)
}

#[test]
fn all_connections_are_waited_for(rt: HostRuntime) {
    let left = left_open(&rt, rt.alloc()).map_err(|error| error.kind());
    assert!(rt; left == Ok(0), "each was removed: {left:?}");
}

/// What the client of a connection reads that was removed after all were told to end, or why it
/// reads nothing: nothing is shut down that is removed within a second.
fn read_behind_the_end<
    R: Threads + Wait + Clock + Net<Listener = TcpListener, Stream = TcpStream> + Sync,
>(rt: &R, alloc: Global) -> io::Result<usize> {
    let (client, server) = connect(rt)?;
    let server = Arc::new(alloc, server)?;
    let clients = Clients::new(alloc);
    clients.add(rt, 0, &server)?;
    let (_, _) = thread::join(rt, || clients.end_all(rt), || remove_both(rt, &clients));
    let mut byte = [0u8; 1];
    let mut reader = &client;
    let read = reader.read(&mut byte);
    drop(clients);
    drop(server);
    read
}

#[test]
fn connections_that_end_in_time_are_not_cut(rt: HostRuntime) {
    let read = read_behind_the_end(&rt, rt.alloc()).map_err(|error| error.kind());
    assert!(rt;
        read == Err(io::ErrorKind::WouldBlock),
        "it is open still: {read:?}"
    );
}
