//! What the commands of the program share: how they end ([`Finish`]), the words of a line
//! ([`Words`]), which word of a line is wrong ([`GrammarFault`]) or of a request ([`WordFault`]),
//! why the request of a line of a copy is not done ([`Undone`]), and how a line shows replies
//! ([`ReplyText`]).
#![tactic(auto)]

mod digits;
mod finish;
mod grammar_fault;
mod reply_text;
mod undone;
mod word_fault;
mod words;

pub use digits::Digits;
pub use finish::{Fault, Finish};
pub use grammar_fault::GrammarFault;
pub use reply_text::{Hex, ReplyText};
pub use undone::Undone;
pub use word_fault::WordFault;
pub use words::{LineFault, Words};
