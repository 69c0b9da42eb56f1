//! Redis's protocol, as the protocol of a link.
ghost use Rattle.std.specs.Prelude.{◌≡◌, ◌≢◌, ◌++◌, [], ℕ, List, length, Ok, true, IfErr};
ghost use Rattle.chord_resp.specs.Answers.{error, Joins};
ghost use Rattle.chord_resp.specs.Machine.{start};
ghost use Rattle.chord_resp.specs.Reading.{partial_bytes, reading_of};
ghost use Rattle.chord_resp.specs.Refusals.{refusal_text};
ghost use Rattle.chord_resp.specs.Table.{Gives, command_of};
ghost use Rattle.chord_serve.specs.Ends.{IsStop};
ghost use Rattle.chord_serve.specs.declared.link.stage.Step.TheVariants.{Later};
ghost use Rattle.chord_resp_serve.specs.Connections.{first_standing};
ghost use Rattle.chord_resp_serve.specs.Transactions.{GoesOnTo, allowed, standing_behind};
ghost use Rattle.chord_resp_serve.specs.Waiting.{CommandAsked, CommandBegun, CommandHears, CommandIdles, CommandRests, CommandSays, CommandSteps, CommandStops, TakesCommand, TakesWords, is_between_commands, step_of};

use crate::about::About;
use crate::answer::put_answer;
use crate::flow::{Flow, flow_of, with_flow};
use crate::hearing::{Course, hear_on};
use crate::informs::Informs;
use crate::requests::requests_of;
use crate::server_info::{ServerInfo, tell_error};
use crate::standing::Standing;
use crate::subject::Subject;
use crate::tally::Tally;
use crate::telling::tell;
use crate::waiting_command::WaitingCommand;
use chord_resp::{Command, Commands, Denied, ReadError, Refusal, Words, command_of, put_refusal};
use chord_serve::{Asked, Asker, Due, Protocol, Served, Step};
use std::alloc::{AllocError, Global};

/// The bytes that came and are not answered yet, how far it is, the server, the asker, and the
/// command that waits for an answer.
#[derive(Drop)]
pub struct CommandProtocol<'i, A, I> {
    commands: Commands,
    standing: Standing,
    server: ServerInfo<'i, I>,
    asker: A,
    waiting: Option<WaitingCommand>,
}

/// What a link does behind a command.
fn step_of(told: Result<Flow, AllocError>) -> Result<Step, Served>
    ensures exact { result ≡ step_of told }
    ensures stop { IfErr result IsStop }
    ensures now { result ≢ Ok Later }
{
    match told {
        Ok(Flow::GoesOn) => Ok(Step::Answered),
        Ok(Flow::Quits) => Err(Served::Quit),
        Err(_) => Err(Served::Memory),
    }
}

/// The command that is done for these words, or why none is.
fn called_for(alloc: Global, standing: &mut Standing, words: Words) -> Result<Command, Denied>
    ensures exact { Gives (λ x. x) result
        (allowed standing.old.is_in_transaction (command_of words)) }
    ensures behind { GoesOnTo (standing_behind standing.old (command_of words)) result
        standing.new }
{
    match command_of(alloc, words) {
        Err(Denied::Memory) => Err(Denied::Memory),
        Err(Denied::Refused(refusal)) => standing.pass(Err(refusal)),
        Ok(command) => standing.pass(Ok(command)),
    }
}

/// Adds the error of words that are no command.
fn tell_refusal(alloc: Global, due: &mut Due, refusal: &Refusal) -> Result<(), AllocError>
    ensures { Joins result due.old due.new (error (refusal_text refusal.now)) }
{
    put_refusal(alloc, &mut due.bytes, refusal)
}

impl<'i, A, I> CommandProtocol<'i, A, I> {
    /// A connection that has read nothing.
    pub fn new(alloc: Global, server: ServerInfo<'i, I>, asker: A) -> CommandProtocol<'i, A, I>
        ensures commands { result.commands ≡ record { state = start; bytes = [] } }
        ensures standing { result.standing ≡ first_standing }
        ensures server { result.server ≡ server.entry }
        ensures asker { result.asker ≡ asker }
        ensures idle { CommandIdles result }
    {
        CommandProtocol {
            commands: Commands::new(alloc),
            standing: Standing {
                asked: 0,
                is_in_transaction: false,
                shuts_down: false,
            },
            server,
            asker,
            waiting: None,
        }
    }

    /// Whether its client sent SHUTDOWN: the server is to stop.
    pub fn shuts_down(&self) -> bool
        ensures { result ≡ self.now.standing.shuts_down }
    {
        self.standing.shuts_down
    }

    pub fn into_asker(self) -> A
        ensures { result ≡ self.entry.asker }
    {
        let CommandProtocol {
            commands,
            standing: _,
            server: _,
            asker,
            waiting,
        } = self;
        drop(commands);
        drop(waiting);
        asker
    }
}

impl<A: Asker, I: Informs> CommandProtocol<'_, A, I> {
    /// Hears the answer to the next request of a command, and asks those behind it. The command is
    /// answered, unless one of them waits.
    fn settle(
        &mut self,
        alloc: Global,
        due: &mut Due,
        waiting: WaitingCommand,
        answer: Asked,
        may_wait: bool,
    ) -> Result<Step, Served>
        requires { CommandIdles self.old }
        ensures next { (before : _) → CommandAsked A.answers I.tells before waiting answer self.old
            → CommandSteps A.answers I.tells result before due.old due.new self.new }
        ensures commands { self.new.commands ≡ self.old.commands }
        ensures grows { (bytes : List ℕ) × (due.new ≡ due.old ++ bytes) }
        ensures stop { IfErr result IsStop }
        ensures patient { result ≡ Ok Later → may_wait ≡ true }
    {
        let WaitingCommand {
            command,
            requests,
            flow,
            mut tally,
            info,
        } = waiting;
        let place = tally.done as usize;
        let asker = &mut self.asker;
        let rest = &requests.as_slice()[place + 1..];
        match hear_on(
            asker,
            &mut self.standing,
            answer,
            rest,
            &mut tally,
            may_wait,
        ) {
            Course::Waits => {
                self.waiting = Some(WaitingCommand {
                    command,
                    requests,
                    flow,
                    tally,
                    info,
                });
                Ok(Step::Later)
            }
            Course::Ended(outcome) => {
                let about = About {
                    number: self.server.number,
                    info: &info,
                };
                let of = requests.as_slice().len();
                let out = &mut due.bytes;
                let told = tell(alloc, out, about, &command, of, &tally, outcome);
                drop((command, requests, tally, info));
                step_of(with_flow(told, flow))
            }
        }
    }

    /// Begins a command, whose words were taken off: asks its requests, up to one that waits.
    fn begin(
        &mut self,
        alloc: Global,
        due: &mut Due,
        command: Command,
        info: Vec<u8>,
        may_wait: bool,
    ) -> Result<Step, Served>
        requires { CommandIdles self.old }
        ensures next { (before : _)
            → (taken : TakesCommand I.tells before command info.items self.old)
            → self.old.standing ≡ standing_behind before.standing (command_of taken.words)
            → before.asker ≡ self.old.asker
            → CommandSteps A.answers I.tells result before due.old due.new self.new }
        ensures commands { self.new.commands ≡ self.old.commands }
        ensures grows { (bytes : List ℕ) × (due.new ≡ due.old ++ bytes) }
        ensures stop { IfErr result IsStop }
        ensures patient { result ≡ Ok Later → may_wait ≡ true }
    {
        let flow = flow_of(&command);
        let tally = Tally::new();
        let Ok(requests) = requests_of(alloc, &command) else {
            return Err(Served::Memory);
        };
        let Some(request) = requests.as_slice().first() else {
            let about = About {
                number: self.server.number,
                info: &info,
            };
            let told = put_answer(alloc, &mut due.bytes, about, &command, &tally);
            drop((command, requests, tally, info));
            return step_of(with_flow(told, flow));
        };
        let answer = self.asker.ask(request, self.standing.asked);
        self.standing.asked = self.standing.asked.saturating_add(1);
        let waiting = WaitingCommand {
            command,
            requests,
            flow,
            tally,
            info,
        };
        self.settle(alloc, due, waiting, answer, may_wait)
    }

    /// Answers the words of a command, unless it waits.
    fn answer(
        &mut self,
        alloc: Global,
        due: &mut Due,
        words: Words,
        may_wait: bool,
    ) -> Result<Step, Served>
        requires { CommandIdles self.old }
        ensures next { (before : _) → TakesWords before words self.old
            → before.standing ≡ self.old.standing → before.asker ≡ self.old.asker
            → CommandSteps A.answers I.tells result before due.old due.new self.new }
        ensures commands { self.new.commands ≡ self.old.commands }
        ensures grows { (bytes : List ℕ) × (due.new ≡ due.old ++ bytes) }
        ensures stop { IfErr result IsStop }
        ensures patient { result ≡ Ok Later → may_wait ≡ true }
    {
        let subject = Subject::of_words(&words);
        let Ok(info) = subject.told_by(alloc, self.server.source) else {
            drop(words);
            return Err(Served::Memory);
        };
        match called_for(alloc, &mut self.standing, words) {
            Err(Denied::Memory) => Err(Served::Memory),
            Err(Denied::Refused(refusal)) => {
                self.asker.refuse();
                let told = tell_refusal(alloc, due, &refusal);
                drop((refusal, info));
                step_of(with_flow(told, Flow::GoesOn))
            }
            Ok(command) => self.begin(alloc, due, command, info, may_wait),
        }
    }
}

impl<A: Asker, I: Informs> Protocol for CommandProtocol<'_, A, I> {
    ghost hears = { CommandHears };

    ghost says = { CommandSays A.answers I.tells };

    ghost stops = { CommandStops A.answers I.tells };

    ghost rests = { CommandRests };

    ghost idle = { CommandIdles };

    ghost begun = { CommandBegun A.answers I.tells };

    ghost between = { is_between_commands };

    ghost unread = { λ c. length (reading_of c.commands).commands };

    ghost partial = { λ c. partial_bytes c.commands };

    fn is_between(&self) -> bool {
        self.commands.is_between()
    }

    fn partial(&self) -> u64 {
        self.commands.partial()
    }

    fn feed(&mut self, piece: &[u8]) -> Result<(), AllocError> {
        match self.commands.feed(piece) {
            Ok(()) => Ok(()),
            Err(refused) => Err(refused),
        }
    }

    fn answer_next(
        &mut self,
        alloc: Global,
        due: &mut Due,
        may_wait: bool,
    ) -> Result<Step, Served> {
        if let Some(waiting) = self.waiting.take() {
            let answer = self.asker.try_again();
            return self.settle(alloc, due, waiting, answer, may_wait);
        }
        match self.commands.next() {
            Ok(None) => Ok(Step::Nothing),
            Ok(Some(words)) => self.answer(alloc, due, words, may_wait),
            Err(ReadError::Memory) => Err(Served::Memory),
            Err(ReadError::Protocol(error)) => Err(tell_error(alloc, due, error)),
        }
    }
}
