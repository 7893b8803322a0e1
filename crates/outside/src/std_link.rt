//! A link over a reader and a writer of std. It tells no bytes.
ghost use Rattle.std.specs.Prelude.{◌≡◌, ◌≢◌, ◌<◌, None, false, length, refl};
ghost use Rattle.std.specs.Io.KnownBytes.{Appends, Consumes, IsAtEnd};
ghost use Rattle.outside.specs.Causes.{bytes_got, bytes_taken, GivesWithin, Read, TakesWithin, Wrote};
ghost use Rattle.outside.specs.StdLink.{told_of};
ghost use Rattle.outside.specs.Counts.{nothing_counted};

use crate::count::Count;
use crate::link::{Link, ReadOut, WriteOut};
use crate::retry::{read_once, write_once};
use std::io::{Read, Write};

/// A link over a reader and a writer of std, which never answers `NotYet`.
#[derive(Drop)]
pub struct StdLink<R, W> {
    reader: R,
    writer: W,
    read_faults: Count,
    write_faults: Count,
}

impl<R, W> StdLink<R, W> {
    /// A link that reads from the reader and writes to the writer.
    pub fn new(reader: R, writer: W) -> StdLink<R, W>
        ensures { told_of result ≡ record {
          taken = None;
          sent = None;
          ended = None;
          plan = None;
          faults = nothing_counted;
          waits = nothing_counted;
        } }
    {
        StdLink {
            reader,
            writer,
            read_faults: Count::new(),
            write_faults: Count::new(),
        }
    }
}

impl<R: Read, W: Write> Link for StdLink<R, W> {
    ghost told = { told_of };

    ghost sure = { false };

    // Where the reader tells its bytes, these are the ones, and the end is theirs.
    fn read(&mut self, buf: &mut [u8]) -> ReadOut
        requires { 0 < length buf.old }
        ensures within { GivesWithin result buf.new }
        ensures reads { Consumes (R.remaining self.old.reader) (R.remaining self.new.reader)
            (bytes_got result buf.new) }
        ensures over { result ≡ ReadOut.End → IsAtEnd (R.remaining self.new.reader) }
        ensures never { result ≢ ReadOut.NotYet }
        ensures read { Read result (bytes_got result buf.new) (told_of self.old) (told_of self.new) }
    {
        match read_once(&mut self.reader, buf) {
            Ok(0) => ReadOut::End,
            Ok(n) => ReadOut::Got(n),
            Err(_) => {
                self.read_faults.rise();
                ReadOut::Failed
            }
        }
    }

    // Where the writer tells its bytes, those that were taken came to them.
    fn write(&mut self, piece: &[u8]) -> WriteOut
        ensures within { TakesWithin result piece.now }
        ensures writes { Appends (W.contents self.old.writer) (W.contents self.new.writer)
            (bytes_taken result piece.now) }
        ensures never { result ≢ WriteOut.NotYet }
        ensures wrote { Wrote result (bytes_taken result piece.now) (told_of self.old) (told_of self.new) }
    {
        match write_once(&mut self.writer, piece) {
            Ok(0) => {
                self.write_faults.rise();
                WriteOut::Took(0)
            }
            Ok(n) => WriteOut::Took(n),
            Err(_) => {
                self.write_faults.rise();
                WriteOut::Failed
            }
        }
    }

    ghost use Rattle.std.proofs.Common.{arith};

    ghost ended_told = { λ _. refl };

    ghost follows_plan = { λ _. tt };

    ghost surely = { λ link sure. Prim.cc };

    ghost faults_fit = { λ link. record { reads = link.read_faults.fits; writes = link.write_faults.fits } };

    ghost waits_fit = { λ _. record { reads = Prim.omega arith; writes = Prim.omega arith } };
}
