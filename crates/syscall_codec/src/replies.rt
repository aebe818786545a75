//! The replies to system calls.

ghost use Rattle.std.specs.Prelude.{◌≡◌};
ghost use Rattle.syscall_codec.specs.ReplyWords.{new_server_words as spelled_server, message_words as spelled_message};
ghost use Rattle.syscall_codec.specs.Replies.{words_of};

use xk_base::{Cid, Message, Sid, Tid, XousError};

/// The answer to a system call.
#[derive(Clone, Copy, Debug, PartialEq, Eq)]
pub enum Reply {
    /// The call was served.
    Plain,
    /// The call was refused.
    Refused(XousError),
    /// An address and a size in bytes.
    Range(u32, u32),
    /// A connection.
    Connection(Cid),
    /// A new server, and the caller's connection to it.
    NewServer(Sid, Cid),
    /// A message for the server that received it.
    Got(Message),
    /// A thread.
    Thread(Tid),
    /// One value.
    Scalar1(u32),
    /// Two values.
    Scalar2(u32, u32),
    /// The end of a lend: offset and valid, as the server left them.
    Returned(u32, u32),
}

/// The eight words of a reply, with 0 where it names no word.
pub fn reply_words(r: &Reply) -> [u32; 8]
    ensures { result ≡ words_of r.now }
{
    match *r {
        Reply::Plain => [0; 8],
        Reply::Refused(error) => [1, error.code(), 0, 0, 0, 0, 0, 0],
        Reply::Range(address, size) => [3, address, size, 0, 0, 0, 0, 0],
        Reply::Connection(cid) => [7, cid.0, 0, 0, 0, 0, 0, 0],
        Reply::NewServer(sid, cid) => new_server_words(sid, cid),
        Reply::Got(message) => message_words(&message),
        Reply::Thread(tid) => [10, tid.0 as u32, 0, 0, 0, 0, 0, 0],
        Reply::Scalar1(value) => [14, value, 0, 0, 0, 0, 0, 0],
        Reply::Scalar2(value1, value2) => [15, value1, value2, 0, 0, 0, 0, 0],
        Reply::Returned(offset, valid) => [18, offset, valid, 0, 0, 0, 0, 0],
    }
}

/// The words for a new server.
fn new_server_words(sid: Sid, cid: Cid) -> [u32; 8]
    ensures { result ≡ spelled_server sid cid.0 }
{
    let Sid([s0, s1, s2, s3]) = sid;
    [19, s0, s1, s2, s3, cid.0, 0, 0]
}

/// The words of a message.
fn message_words(message: &Message) -> [u32; 8]
    ensures { result ≡ spelled_message message.now }
{
    let [w0, w1, w2, w3] = message.words;
    let kind = message.kind.number();
    [9, message.number.0, kind, message.id, w0, w1, w2, w3]
}
