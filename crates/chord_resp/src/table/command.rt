use chord_map::{Bytes, Values};

/// What a client asks for. A key has 1 to 255 bytes, a member at most 4,096.
#[derive(Debug, Drop)]
pub enum Command {
    /// SADD: insert each member under the key.
    Add { key: Bytes, members: Values },
    /// SREM: remove each member from the key.
    Remove { key: Bytes, members: Values },
    /// SMEMBERS: the members of the key.
    Members { key: Bytes },
    /// SCARD: how many members the key has.
    Count { key: Bytes },
    /// SISMEMBER: whether the key has the member.
    IsMember { key: Bytes, member: Bytes },
    /// SMISMEMBER: the same for each member.
    AreMembers { key: Bytes, members: Values },
    /// EXISTS: how many of the keys have members.
    Exist { keys: Values },
    /// TYPE: whether the key has members.
    Kind { key: Bytes },
    /// PING without a word.
    Ping,
    /// PING and ECHO with a word, which is the answer.
    Echo { word: Bytes },
    /// What is answered by OK, and does nothing.
    Accept,
    /// CLIENT GETNAME, which is answered by no value.
    Name,
    /// CLIENT ID: the connection's number.
    Number,
    /// HELLO: what the server is.
    Hello,
    /// COMMAND and CONFIG GET, which are answered by an empty array.
    Nothing,
    /// COMMAND COUNT: how many commands there are.
    Commands,
    /// INFO: the server, its clients and its nodes.
    Info,
    /// QUIT: OK, and the end of the connection.
    Quit,
    /// RESET: the connection is as it began, but for its number.
    Reset,
    /// MULTI: a transaction begins.
    Multi,
    /// EXEC: the transaction is done, and ends.
    Exec,
    /// DISCARD: the transaction ends, and nothing of it is done.
    Discard,
    /// AUTH of the user `default`, whom each password lets in.
    Auth,
    /// TIME: the moment, by the server's clock.
    Time,
    /// SHUTDOWN: the server stops. The connection ends without an answer.
    Shutdown,
}
