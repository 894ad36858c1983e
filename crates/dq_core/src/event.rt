use dq_list::Listed;

/// An event that happens to the server. A connection has a number, and opened numbers rise.
#[derive(Drop)]
pub enum Event {
    /// A connection is opened.
    Open(u64),
    /// Octets came on a connection.
    Piece(u64, Listed<u8>),
    /// The peer ended a connection.
    End(u64),
    /// The next page of the answers to the C-FIND that is open on a connection is to be sent.
    Pull(u64),
    /// The console schedules an entry of an institution's worklist.
    Schedule {
        inst: Listed<u8>,
        octets: Listed<u8>,
    },
    /// The console withdraws an entry.
    Withdraw {
        inst: Listed<u8>,
        id: Listed<u8>,
    },
}

/// The reply to an event.
#[derive(Drop)]
pub enum Reply {
    /// Octets for a connection, and whether it is closed after them.
    Octets {
        conn: u64,
        octets: Listed<u8>,
        close: bool,
    },
    Done,
    /// The console's change is refused, with the number of the refusal.
    Refused(u16),
    /// The connection is not held.
    Ignored,
}
