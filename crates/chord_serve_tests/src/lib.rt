//! The tests of frames, `chord_wire`, and of sessions over them, `chord_session` and `chord_serve`;
//! and of Redis's protocol, `chord_resp`, and sessions in it, `chord_resp_serve`.
#![tactic(auto)]

#[cfg(test)]
mod askers;
#[cfg(test)]
mod escapes;
#[cfg(test)]
mod frames;
#[cfg(test)]
mod growths;
#[cfg(test)]
mod options;
#[cfg(test)]
mod redis;
#[cfg(test)]
mod shown;
#[cfg(test)]
mod tests;
#[cfg(test)]
mod wire;
