//! Whether no two messages of all servers have one number, told from the rows: numbers are listed and
//! sorted.

ghost use Rattle.std.specs.Prelude.{◌≡◌, ◌↔◌, ◌++◌, map, IsTrue, OnOk, IfOk};
ghost use Rattle.std.specs.List.{flat_map};
ghost use Rattle.snapshot_matching.specs.ServerParts.{message_key, message_keys, AreMessagesApart};

use snapshot_rows::{MessageRow, ServerRow, are_different};
use std::alloc::Global;
use xk_base::NoMemory;

/// Adds the numbers of messages to keys.
fn add_messages(keys: &mut Vec<(u32, u32)>, messages: &[MessageRow]) -> Result<(), NoMemory>
    ensures { OnOk result (keys.new.items ≡ keys.old.items ++ map message_key messages.now) }
{
    for message in messages {
        if keys.push((message.number, 0)).is_err() {
            return Err(NoMemory);
        }
    }
    Ok(())
}

fn add_server(keys: &mut Vec<(u32, u32)>, server: &ServerRow) -> Result<(), NoMemory>
    ensures { OnOk result (keys.new.items ≡ keys.old.items ++ message_keys server.now) }
{
    add_messages(keys, server.queued.as_slice())?;
    add_messages(keys, server.held.as_slice())
}

/// The numbers of the messages of all servers.
fn numbers(alloc: Global, servers: &[ServerRow]) -> Result<Vec<(u32, u32)>, NoMemory>
    ensures { IfOk result (λ keys. keys.items ≡ flat_map message_keys servers.now) }
{
    let mut keys = Vec::new(alloc);
    for server in servers {
        add_server(&mut keys, server)?;
    }
    Ok(keys)
}

/// Whether no two messages of all servers have one number.
pub fn are_messages_apart(alloc: Global, servers: &[ServerRow]) -> Result<bool, NoMemory>
    ensures { IfOk result (λ told. IsTrue told ↔ AreMessagesApart servers.now) }
{
    let keys = numbers(alloc, servers)?;
    Ok(are_different(keys))
}
