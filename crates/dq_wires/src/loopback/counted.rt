//! Wires around wires, which count the octets that are written.
ghost use Rattle.std.specs.Prelude.{◌≡◌};

use crate::calls::{Progress, ReadTurn, WireFault};
use crate::wires::Wires;

/// Wires that count the octets that are written over those inside.
#[derive(Drop)]
pub(crate) struct CountedWires<W> {
    /// Those inside.
    pub(crate) wires: W,
    /// How many octets were written, as far as a `u64` counts.
    pub(crate) written: u64,
}

impl<W> CountedWires<W> {
    /// Around wires over which nothing is counted yet.
    pub(crate) fn new(wires: W) -> Self
        ensures { result ≡ record { wires = wires; written = 0 } }
    {
        CountedWires { wires, written: 0 }
    }
}

impl<W: Wires> Wires for CountedWires<W> {
    ghost log = { λ counted. W.log counted.wires };

    ghost failed_accepts = { λ counted. W.failed_accepts counted.wires };

    fn accept(&mut self) -> Result<Option<usize>, WireFault> {
        self.wires.accept()
    }

    fn read(&mut self, place: usize, buffer: &mut [u8]) -> Result<ReadTurn, WireFault> {
        self.wires.read(place, buffer)
    }

    fn write(&mut self, place: usize, octets: &[u8]) -> Result<usize, WireFault> {
        let taken = self.wires.write(place, octets);
        if let Ok(count) = taken {
            self.written = self.written.saturating_add(count as u64);
        }
        taken
    }

    fn learn(&mut self, place: usize, progress: Progress) {
        self.wires.learn(place, progress);
    }

    fn shut(&mut self, place: usize) -> Result<(), WireFault> {
        self.wires.shut(place)
    }
}
