//! Worked values.

mod ident;
mod links;
mod ring;
mod route;
