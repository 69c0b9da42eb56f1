//! The steps of a world, a file for each kind; what they share is in `checks` and `outgoing`.

mod act;
mod checks;
mod crash;
mod create;
mod deliver;
mod finger;
mod give_up;
mod join;
mod note;
mod open_caller;
pub(crate) mod outgoing;
mod resend;
mod retire;
mod submit;
mod upkeep;
