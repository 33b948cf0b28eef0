//! Sessions.

use pl_text_tests::DECODER_APART;
use std::alloc::{AllocError, Global};

/// `examples/fault_handed_over`: the decoder is apart, and the transport takes four bytes, and fails in its second call.
pub(crate) fn failing(alloc: Global) -> Result<String, AllocError> {
    DECODER_APART.replace(alloc, "\"bursts\"", "\"window\":4,\"fail_at\":2,\"bursts\"")
}

/// Low marks, so that the second burst is held, and flags go to the tail.
pub(crate) const HELD: &str = r#"{"version":1,"capacity":4,"loops":1,"channels":[{"handlers":[
{"op":"last","name":"lines","kind":"lines","max":64},
{"op":"last","name":"decode","kind":"decode"},
{"op":"last","name":"lineend","kind":"lineend"},
{"op":"last","name":"encode","kind":"encode"},
{"op":"last","name":"service","kind":"service"}],
"low":1,"high":2,"bursts":[["PING\n"],["PING\n"]]}]}"#;

/// Two channels of version 2, each with a handler in a group of two executors: the first sends frames and a user event, the
/// second is aborted after its one burst.
pub(crate) const TWO: &str =
    r#"{"version":2,"capacity":2,"loops":2,"groups":[{"name":"g","size":2}],"channels":[{"handlers":[
{"op":"last","name":"frames","kind":"length","width":2,"max":64},
{"op":"last","name":"decode","kind":"decode","group":"g"},
{"op":"last","name":"prepend","kind":"prepend","width":2},
{"op":"last","name":"encode","kind":"encode","group":"g"},
{"op":"last","name":"service","kind":"service"}],
"bursts":[["000450494e47",{"user":7},"00034d4d4d"],["000450494e47"]]},{"handlers":[
{"op":"last","name":"service","kind":"service","group":"g"},
{"op":"first","name":"decode","kind":"decode"},
{"op":"before","at":"decode","name":"lines","kind":"lines","max":64},
{"op":"after","at":"decode","name":"encode","kind":"encode"},
{"op":"after","at":"decode","name":"gone","kind":"encode"},
{"op":"remove","name":"gone"}],
"window":3,"abort_after":1,"bursts":[["50494e470a"]]}]}"#;
