//! The sessions of a server: each token names one, one connection at most has it, and those without
//! a connection are found by their whole tokens and dropped oldest first.
//!
//! Sessions have numbers, which are the last bytes of their tokens. In a table:
//! - `begin 1 10`: session 1, over connection 10. `resume 1 30`: it goes on over connection 30.
//!   `part 1 9`: it loses its connection at the moment 9. `end 1`.
//! - `connection 1`: the one that has it. `token 10`: the session that connection 10 has.
//! - `may-drop 4`, `drop 4`: the session that lost its connection first, if it did by the moment 4.
//!
//! Among kept sessions alone:
//! - `keep 1 10`, `keep-to 200`: session 1, which lost its connection at the moment 10; and
//!   sessions 1 to 200, each at the moment of its number.
//! - `knows 2`, `take 2`: by its token. That of 258 has another first byte.
//! - `oldest 20`, `oldest-to 190`: takes the session that lost its connection first, by the moment
//!   20; and sessions 1 to 190 in turn, each by the moment 190.
//!
//! Behind `; ` stand how many sessions the table keeps and how many bytes of answers these have,
//! and how many are among the kept ones.

use chord_app_text::{GrammarFault, LineFault, Words};
use chord_serve::{ClientSession, KeptSessions, Resumed, SessionTable};
use chord_testkit::{Fresh, MEMORY, Subject, Text, follow, name_of, yes_or_no};
use chord_wire::Token;
use std::alloc::Global;
use std::test::Fail;

/// An asker with a number.
#[derive(Clone, Copy)]
struct Numbered(u64);

#[derive(Drop)]
struct Tabled {
    alloc: Global,
    table: SessionTable<Numbered>,
    kept: KeptSessions<Numbered>,
}

impl Fresh for Tabled {
    fn fresh(alloc: Global) -> Tabled {
        Tabled {
            alloc,
            table: SessionTable::new(alloc),
            kept: KeptSessions::new(alloc),
        }
    }
}

impl Subject for Tabled {
    fn act(&mut self, words: &mut Words) -> Result<Text, LineFault> {
        let word = words.word()?;
        let number = words.number()?;
        let text = match word {
            "begin" => begin(&mut self.table, token(number), words.number()?),
            "resume" => resume(&mut self.table, token(number), words.number()?),
            "part" => part(self.alloc, &mut self.table, number, words.number()?),
            "keep" => keep(self.alloc, &mut self.kept, number, words.number()?),
            "keep-to" => keep_to(self.alloc, &mut self.kept, number),
            "end" => {
                self.table.end(token(number));
                Text::of("Ended")
            }
            "connection" => shown(self.table.connection_of(token(number))),
            "token" => shown(self.table.token_of(number).map(number_of)),
            "may-drop" => yes_or_no(self.table.can_drop(number)),
            "drop" => shown(self.table.drop_oldest(number).map(|asker| asker.0)),
            word => look(&mut self.kept, word, number)?,
        };
        Ok(text)
    }

    fn show(&self) -> Text {
        let count = self.table.kept_count();
        let bytes = self.table.kept_bytes();
        let kept = self.kept.len();
        Text::of(format_args!("keeps {count} with {bytes}, kept {kept}"))
    }
}

/// The token of a session. Above 255 its first byte is another one.
fn token(number: u64) -> Token {
    let mut bytes = [9; 16];
    bytes[0] = (number / 0x100 % 0x100) as u8;
    bytes[15] = (number % 0x100) as u8;
    Token { bytes }
}

fn number_of(token: Token) -> u64 {
    u64::from(token.bytes[15])
}

fn shown(number: Option<u64>) -> Text {
    match number {
        Some(number) => Text::of(format_args!("{number}")),
        None => Text::of("None"),
    }
}

fn begin(table: &mut SessionTable<Numbered>, token: Token, connection: u64) -> Text {
    match table.begin(token, connection) {
        Ok(()) => Text::of("Begun"),
        Err(fault) => name_of(&fault),
    }
}

fn resume(table: &mut SessionTable<Numbered>, token: Token, connection: u64) -> Text {
    match table.resume(token, connection) {
        Resumed::Here(client) => {
            let number = client.into_asker().0;
            Text::of(format_args!("Here {number}"))
        }
        Resumed::Elsewhere(older) => Text::of(format_args!("Elsewhere {older}")),
        Resumed::Unknown => Text::of("Unknown"),
        Resumed::Memory => Text::of(MEMORY),
    }
}

/// `Kept`, or what was given back.
fn placed(placed: Result<(), ClientSession<Numbered>>) -> Text {
    match placed {
        Ok(()) => Text::of("Kept"),
        Err(client) => {
            client.into_asker();
            Text::of(MEMORY)
        }
    }
}

fn part(alloc: Global, table: &mut SessionTable<Numbered>, number: u64, since: u64) -> Text {
    let client = ClientSession::new(alloc, Numbered(number));
    placed(table.part(token(number), since, client))
}

fn keep(alloc: Global, kept: &mut KeptSessions<Numbered>, number: u64, since: u64) -> Text {
    let client = ClientSession::new(alloc, Numbered(number));
    placed(kept.keep(token(number), since, client))
}

fn keep_to(alloc: Global, kept: &mut KeptSessions<Numbered>, last: u64) -> Text {
    for number in 1..=last {
        let came = keep(alloc, kept, number, number);
        if came.as_str() != "Kept" {
            return came;
        }
    }
    Text::of("Kept")
}

/// The number of the session, if there is one.
fn taken(client: Option<ClientSession<Numbered>>) -> Text {
    shown(client.map(|client| client.into_asker().0))
}

fn look(kept: &mut KeptSessions<Numbered>, word: &str, number: u64) -> Result<Text, LineFault> {
    match word {
        "knows" => Ok(yes_or_no(kept.knows(token(number)))),
        "take" => Ok(taken(kept.take(token(number)))),
        "oldest" => Ok(taken(kept.take_oldest(number))),
        "oldest-to" => Ok(oldest_to(kept, number)),
        _ => Err(GrammarFault::NoLine.into()),
    }
}

fn oldest_to(kept: &mut KeptSessions<Numbered>, last: u64) -> Text {
    for number in 1..=last {
        let came = taken(kept.take_oldest(last));
        if came.as_str() != shown(Some(number)).as_str() {
            return came;
        }
    }
    Text::of("InOrder")
}

const SCRIPTS: &str = "
== a token begins one session
begin 1 10 > Begun
begin 2 20 > Begun
part 2 5 > Kept; keeps 1 with 0, kept 0
# a connection has the first; the second is kept
begin 1 30 > Known
begin 2 30 > Known
connection 1 > 10
connection 2 > None
connection 3 > None
token 10 > 1
token 20 > None
end 1 > Ended
connection 1 > None
# its token begins another
begin 1 40 > Begun
connection 1 > 40

== a session is resumed over one connection
begin 1 10 > Begun
begin 2 20 > Begun
part 2 5 > Kept; keeps 1 with 0, kept 0
resume 1 30 > Elsewhere 10
# no connection had it; then an older connection has it
resume 2 30 > Here 2; keeps 0 with 0, kept 0
resume 2 40 > Elsewhere 30
resume 3 50 > Unknown
# connection 30 is lost, so it goes on over another
part 2 7 > Kept; keeps 1 with 0, kept 0
connection 2 > None
resume 2 40 > Here 2; keeps 0 with 0, kept 0

== the oldest kept session is dropped
begin 1 10 > Begun
begin 2 20 > Begun
part 2 5 > Kept; keeps 1 with 0, kept 0
part 1 9 > Kept; keeps 2 with 0, kept 0
# both lost their connections later
may-drop 4 > No
drop 4 > None
# the second lost it first
may-drop 100 > Yes
drop 100 > 2; keeps 1 with 0, kept 0
resume 2 60 > Unknown
drop 9 > 1; keeps 0 with 0, kept 0
may-drop 18446744073709551615 > No
drop 18446744073709551615 > None

== a session is found by its whole token
keep 1 10 > Kept; keeps 0 with 0, kept 1
keep 2 20 > Kept; keeps 0 with 0, kept 2
keep 3 30 > Kept; keeps 0 with 0, kept 3
keep 4 40 > Kept; keeps 0 with 0, kept 4
knows 2 > Yes
knows 5 > No
# one byte differs
knows 258 > No
take 258 > None
# it is taken once
take 2 > 2; keeps 0 with 0, kept 3
take 2 > None
take 1 > 1; keeps 0 with 0, kept 2

== the oldest session is taken first
keep 1 10 > Kept; keeps 0 with 0, kept 1
keep 2 20 > Kept; keeps 0 with 0, kept 2
keep 3 30 > Kept; keeps 0 with 0, kept 3
keep 4 40 > Kept; keeps 0 with 0, kept 4
# all are younger
oldest 9 > None
oldest 20 > 1; keeps 0 with 0, kept 3
oldest 20 > 2; keeps 0 with 0, kept 2
oldest 29 > None
oldest 18446744073709551615 > 3; keeps 0 with 0, kept 1

== two hundred sessions are dropped in order
keep-to 200 > Kept; keeps 0 with 0, kept 200
oldest-to 190 > InOrder; keeps 0 with 0, kept 10
# those that are left are younger
oldest 190 > None
knows 11 > No
";

#[test]
fn sessions_without_a_connection_are_kept(rt: HostRuntime) -> Result<(), Fail> {
    follow::<Tabled>(rt.alloc(), SCRIPTS)
}
