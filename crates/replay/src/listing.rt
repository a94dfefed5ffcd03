// The list of a recording's packets.
use crate::cutter::Cutter;
use crate::events::{self, Report};
use std::io;
use std::io::Write;

// The recording as far as it was taken, how many packets were reported, how many of them as faults, and where to.
#[derive(Drop)]
pub(crate) struct Listing<'a, W> {
    cutter: Cutter,
    packets: u64,
    faults: u64,
    out: &'a mut W,
}

impl<'a, W: Write> Listing<'a, W> {
    pub(crate) fn new(out: &'a mut W) -> Self {
        Listing {
            cutter: Cutter::new(),
            packets: 0,
            faults: 0,
            out,
        }
    }

    // Reports the packet that the cutter has ended.
    fn report(&mut self, place: usize) -> io::Result<()> {
        let outcome = events::outcome(&self.cutter);
        self.packets = self.packets.saturating_add(1);
        if outcome.is_err() {
            self.faults = self.faults.saturating_add(1);
        }
        let report = Report { place, outcome };
        writeln!(self.out, "{report}")
    }

    // Hands a piece to the cutter, and reports each packet that ends in it.
    pub(crate) fn feed(&mut self, piece: &[u8]) -> anyhow::Result<()> {
        let mut rest = piece;
        while let Some(cut) = self.cutter.take(rest)? {
            rest = &rest[cut.taken..];
            self.report(cut.place)?;
        }
        Ok(())
    }

    // What is left after the last LF, and how much was reported.
    pub(crate) fn close(&mut self) -> io::Result<()> {
        let (place, length) = self.cutter.rest();
        if length > 0 {
            writeln!(self.out, "rest {place} {length}")?;
        }
        let (packets, faults) = (self.packets, self.faults);
        writeln!(self.out, "packets {packets} faults {faults}")?;
        self.out.flush()
    }
}
