//! The command `serve`: a ring of a plan's nodes, which clients ask over loopback.

pub mod asker;
pub mod caller_pool;
pub mod commands;
pub mod desk;
pub mod frames;
pub mod idle;
pub mod info;
pub mod joining;
pub mod journal;
pub mod made_store;
pub mod operating;
pub mod operator;
pub mod pairs;
pub mod process;
pub mod redis;
pub mod request_tally;
pub mod request_times;
pub mod reserved;
pub mod server;
pub mod service;
pub mod sessions;
pub mod shown;
pub mod tally;
pub mod trying;
pub mod whole_ring;
