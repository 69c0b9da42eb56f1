//! Tests, by what they look at.

mod busy;
mod journals;
mod lasting;
mod redis;
mod redis_hostile;
mod resumes;
mod stay_growths;
mod stays;
mod surplus;
