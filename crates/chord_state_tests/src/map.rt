//! Requests, replies and the plain map.

mod bytes;
mod done;
mod history;
mod pair_list;
mod plain_map;
mod request;
mod samples;
mod values;
