//! The connections of a client, one after another.

use crate::ask::link::{ClientOptions, Link};
use chord_app_text::Finish;
use std::alloc::Global;
use std::net::{Net, TcpStream};

/// How connections are opened, and the one that is open for later requests.
#[derive(Drop)]
pub struct Links {
    alloc: Global,
    client_options: ClientOptions,
    kept: Option<Link>,
    /// How many were opened. Each session has a token of its own.
    opened: u64,
}

impl Links {
    /// Opens the first connection.
    pub fn open<R: Net<Stream = TcpStream>>(
        rt: &R,
        alloc: Global,
        client_options: ClientOptions,
    ) -> Result<Links, Finish> {
        let mut links = Links {
            alloc,
            client_options,
            kept: None,
            opened: 0,
        };
        match links.take(rt) {
            Ok(link) => {
                links.keep(link);
                Ok(links)
            }
            Err(finish) => {
                drop(links);
                Err(finish)
            }
        }
    }

    /// The connection that is open, or else a new one.
    pub fn take<R: Net<Stream = TcpStream>>(&mut self, rt: &R) -> Result<Link, Finish> {
        if let Some(link) = self.kept.take() {
            return Ok(link);
        }
        let tokens = self.client_options.tokens;
        let token = tokens.map(|tokens| tokens.token(self.opened));
        self.opened = self.opened.wrapping_add(1);
        Link::open(rt, self.alloc, self.client_options, token)
    }

    pub fn keep(&mut self, link: Link) {
        drop(self.kept.replace(link));
    }

    /// Closes the connection that is open.
    pub fn close(&mut self) {
        if let Some(link) = self.kept.take() {
            link.close();
        }
    }
}
