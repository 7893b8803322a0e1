//! A sink over a writer of std. It tells no bytes.
ghost use Rattle.std.specs.Prelude.{◌≡◌, None};
ghost use Rattle.std.specs.Io.KnownBytes.{Appends};
ghost use Rattle.outside.specs.SinkCauses.{Puts};

use crate::count::Count;
use crate::sink::{Sink, SinkOut};
use std::io::Write;

/// A sink over a writer of std.
#[derive(Drop)]
pub struct StdSink<W> {
    writer: W,
    faults: Count,
}

impl<W: Write> StdSink<W> {
    /// A sink that writes to the writer.
    pub fn new(writer: W) -> StdSink<W>
        ensures { ⟦<StdSink<W> as Sink>⟧.told result ≡ record { stored = None; faults = 0 } }
    {
        StdSink {
            writer,
            faults: Count::new(),
        }
    }
}

impl<W: Write> Sink for StdSink<W> {
    ghost told = { λ sink. record { stored = None; faults = sink.faults.n } };

    // Where the writer tells its bytes, a piece that is stored came to them whole.
    fn put(&mut self, piece: &[u8]) -> SinkOut
        ensures writes { result ≡ SinkOut.Stored
            → Appends (W.contents self.old.writer) (W.contents self.new.writer) piece.now }
        ensures puts { Puts result piece.now (record { stored = None; faults = self.old.faults.n })
            (record { stored = None; faults = self.new.faults.n }) }
    {
        if self.writer.write_all(piece).is_ok() && self.writer.flush().is_ok() {
            SinkOut::Stored
        } else {
            self.faults.rise();
            SinkOut::Failed
        }
    }

    ghost faults_fit = { λ sink. sink.faults.fits };
}
