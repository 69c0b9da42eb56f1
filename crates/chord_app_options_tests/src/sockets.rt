//! What a server has beside its ring: its listeners, stops and ends.

mod clients;
mod doors;
mod ends;
mod seldom;
