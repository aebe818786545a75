//! The servers of a state, as they stand at their seats.

ghost use Rattle.std.specs.Prelude.{◌≡◌, ◌<◌, OnOk, IfOk, All, map, ◌++◌, ◌∷◌, []};
ghost use Rattle.snapshot_rows.specs.declared.state.ServerRow.{ServerRow as Row};
ghost use Rattle.resume_path.specs.Resumable.{CanResume};
ghost use Rattle.resume_path.specs.Tables.{row_seat};

use server_table::ServerSeat;
use std::alloc::Global;
use suspend_image::{ServerRow, State};
use xk_base::{NoMemory, Pid, Row, Serial, Sid};

// The server of a row.
fn seat(row: &ServerRow) -> ServerSeat
    requires { row.now.pid < 256 }
    ensures { result ≡ row_seat row.now }
{
    ServerSeat {
        sid: Sid(row.sid),
        serial: Serial(row.serial),
        pid: Pid(row.pid as u8),
    }
}

// The servers of a state in the order of their serials.
pub(crate) fn server_seats(alloc: Global, state: &State) -> Result<Row<ServerSeat>, NoMemory>
    requires resumable { CanResume state.now }
    ensures { IfOk result (λ seats. seats ≡ map row_seat state.now.servers) }
{
    let mut seats = Row::new(alloc);
    'rows: for row in state.servers.as_slice() {
        seats.push(seat(row))?;
    }
    Ok(seats)
}
