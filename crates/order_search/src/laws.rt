//! What holds of nodes and their bytes, and of orders that are written as event files. The functions have no code but a call of another
//! law.

ghost use Rattle.order_search.specs.Replays.{OrdersAreReplayed};
ghost use Rattle.order_search.specs.Spelled.{BytesTellNodes};

/// **An order is replayed by its file**: the lines of the events before and then those of the order, read back and played from the start of
/// the image, end where the order leads.
pub fn orders_are_replayed()
    ensures { OrdersAreReplayed }
{
    event_text::lines_are_read();
}

/// **Equal bytes are equal nodes**: what is digested of a node tells its state, the events that came, what processes ended with, and the
/// console.
pub fn bytes_tell_nodes()
    ensures { BytesTellNodes }
{}
