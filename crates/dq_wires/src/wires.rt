//! The wires that connections are made of.
ghost use Rattle.std.specs.Prelude.{◌≡◌, ◌≤◌, ℕ, List, Option, length, IfOk};
ghost use Rattle.dq_wires.specs.declared.calls.Call.{Call};
ghost use Rattle.dq_wires.specs.Logs.{Logs, what_came, IfGot, failures_after_accept};

use crate::calls::{Call, Progress, ReadTurn, WireFault};

/// Accepts connections, and reads and writes their octets, without waiting.
pub trait Wires {
    /// The calls so far with their answers, where they are told.
    ghost log: { Self → Option (List Call) };

    /// How many accepts have failed, as far as a `u64` counts.
    ghost failed_accepts: { Self → ℕ };

    /// The place of the next connection that came, if one did. A place that was shut may come
    /// again.
    fn accept(&mut self) -> Result<Option<usize>, WireFault>
        ensures told { Logs (log self.old) (log self.new) (Call.Accept result) }
        ensures failed { failed_accepts self.new
            ≡ failures_after_accept (failed_accepts self.old) result };

    /// The octets that came on a connection, as many as the buffer has room for.
    fn read(&mut self, place: usize, buffer: &mut [u8]) -> Result<ReadTurn, WireFault>
        ensures told { Logs (log self.old) (log self.new)
            (Call.Read place (length buffer.old) (what_came result buffer.new)) }
        ensures bound { IfGot result (λ count. count ≤ length buffer.old) }
        ensures failed { failed_accepts self.new ≡ failed_accepts self.old };

    /// Sends the first of these octets, and answers how many: 0 is not now.
    fn write(&mut self, place: usize, octets: &[u8]) -> Result<usize, WireFault>
        ensures told { Logs (log self.old) (log self.new) (Call.Write place octets.now result) }
        ensures bound { IfOk result (λ count. count ≤ length octets.now) }
        ensures failed { failed_accepts self.new ≡ failed_accepts self.old };

    /// Learns how far the association on a connection is. It is not a call.
    fn learn(&mut self, _place: usize, _progress: Progress)
        ensures told { log self.new ≡ log self.old }
        ensures failed { failed_accepts self.new ≡ failed_accepts self.old }
    {}

    /// Gives up a connection. Its place is then free, also where it fails.
    fn shut(&mut self, place: usize) -> Result<(), WireFault>
        ensures told { Logs (log self.old) (log self.new) (Call.Shut place result) }
        ensures failed { failed_accepts self.new ≡ failed_accepts self.old };
}
