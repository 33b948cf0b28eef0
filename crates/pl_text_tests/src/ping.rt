//! One PING through the line protocol.

/// Its session.
pub const PING_SESSION: &str = r#"{"version":1,"capacity":4,"loops":1,"channels":[{"handlers":[
{"op":"last","name":"lines","kind":"lines","max":64},
{"op":"last","name":"decode","kind":"decode"},
{"op":"last","name":"lineend","kind":"lineend"},
{"op":"last","name":"encode","kind":"encode"},
{"op":"last","name":"service","kind":"service"}],
"bursts":[["PING\r\n"]]}]}"#;

/// `examples/handover_drained`: one whose decoder has an executor of its own, with queues of one item.
pub const DECODER_APART: &str =
    r#"{"version":1,"capacity":1,"loops":1,"groups":[{"name":"a","size":1}],"channels":[{"handlers":[
{"op":"last","name":"lines","kind":"lines","max":64},
{"op":"last","name":"decode","kind":"decode","group":"a"},
{"op":"last","name":"lineend","kind":"lineend"},
{"op":"last","name":"encode","kind":"encode"},
{"op":"last","name":"service","kind":"service"}],
"bursts":[["PING\r\n"]]}]}"#;

/// The whole report of either, once it is drained.
pub const PING_REPORT: &str = "channel 0 drained
tail 3
Active
Read Ping
ReadComplete
bytes 7 2b504f4e470d0a
writes 1
0 Success
";
