//! The commands `ask` and `load`: their lines, and clients of servers that end early or do not
//! exist.

mod asks;
mod clocks;
mod copies;
mod loads;
mod results;
mod serving;
mod small_server;
