//! How do a reader and a writer of std become a source and a sink?
ghost use Rattle.std.specs.Prelude.{◌≡◌};
ghost use Rattle.lhg_io.specs.Faults.{count_of};

use crate::{Failed, Sink, Source};
use std::io::{Read, Write};

/// A source over a reader of std. It tells the bytes that the reader tells, and of a stream none.
/// Each failure of the reader is a fault.
#[derive(Drop)]
pub struct StdSource<R: Read> {
    reader: R,
    faults: u64,
}

impl<R: Read> StdSource<R> {
    /// A source of what the reader has left, with no fault yet.
    pub fn new(reader: R) -> StdSource<R>
        ensures left { ⟦<StdSource<R> as Source>⟧.left result ≡ R.remaining reader }
        ensures fresh { ⟦<StdSource<R> as Source>⟧.faults result ≡ 0 }
    {
        StdSource { reader, faults: 0 }
    }
}

impl<R: Read> Source for StdSource<R> {
    ghost left = { λ s. R.remaining s.reader };

    ghost faults = { λ s. count_of s.faults };

    fn read(&mut self, buf: &mut [u8]) -> Result<usize, Failed> {
        match self.reader.read(buf) {
            Ok(n) => Ok(n),
            Err(_) => {
                self.faults = self.faults.saturating_add(1);
                Err(Failed)
            }
        }
    }

    ghost use Rattle.std.proofs.Math.Nat.{min-le_right};

    ghost at_most = { λ s. min-le_right _ _ };
}

/// A sink over a writer of std. It tells the bytes that the writer tells, and of a stream none.
/// Each failure of the writer is a fault, and so is a write that takes nothing of its piece.
#[derive(Drop)]
pub struct StdSink<W: Write> {
    writer: W,
    faults: u64,
}

impl<W: Write> StdSink<W> {
    /// A sink that hands on to the writer, with no fault yet.
    pub fn new(writer: W) -> StdSink<W>
        ensures held { ⟦<StdSink<W> as Sink>⟧.held result ≡ W.contents writer }
        ensures fresh { ⟦<StdSink<W> as Sink>⟧.faults result ≡ 0 }
    {
        StdSink { writer, faults: 0 }
    }
}

impl<W: Write> Sink for StdSink<W> {
    ghost held = { λ s. W.contents s.writer };

    ghost faults = { λ s. count_of s.faults };

    fn write(&mut self, piece: &[u8]) -> Result<usize, Failed> {
        match self.writer.write(piece) {
            Ok(0) | Err(_) => {
                self.faults = self.faults.saturating_add(1);
                Err(Failed)
            }
            Ok(n) => Ok(n),
        }
    }

    ghost use Rattle.std.proofs.Math.Nat.{min-le_right};

    ghost at_most = { λ s. min-le_right _ _ };
}

#[cfg(test)]
mod tests {
    use super::*;
    use crate::{Fault, read_all, write_all};
    use std::io;
    use std::test::Fail;

    #[derive(Drop)]
    struct Broken;

    impl Read for Broken {
        fn read(&mut self, _buf: &mut [u8]) -> io::Result<usize> {
            Err(io::ErrorKind::Other.into())
        }
    }

    impl Write for Broken {
        fn write(&mut self, _buf: &[u8]) -> io::Result<usize> {
            Err(io::ErrorKind::Other.into())
        }

        fn flush(&mut self) -> io::Result<()> {
            Ok(())
        }
    }

    // It fails at its first call alone, and gives and takes one byte at each later one.
    #[derive(Drop)]
    struct Recovering {
        called: bool,
    }

    impl Read for Recovering {
        fn read(&mut self, buf: &mut [u8]) -> io::Result<usize> {
            if !self.called {
                self.called = true;
                return Err(io::ErrorKind::Other.into());
            }
            Ok(buf.len().min(1))
        }
    }

    impl Write for Recovering {
        fn write(&mut self, buf: &[u8]) -> io::Result<usize> {
            if !self.called {
                self.called = true;
                return Err(io::ErrorKind::Other.into());
            }
            Ok(buf.len().min(1))
        }

        fn flush(&mut self) -> io::Result<()> {
            Ok(())
        }
    }

    #[test]
    fn goes_on_after_a_fault(rt: HostRuntime) -> Result<(), Fail> {
        let mut source = StdSource::new(Recovering { called: false });
        assert_eq!(rt; source.read(&mut [0; 4]), Err(Failed));
        assert_eq!(rt; source.read(&mut [0; 4]), Ok(1));
        assert_eq!(rt; source.faults, 1);
        let mut sink = StdSink::new(Recovering { called: false });
        assert_eq!(rt; sink.write(b"report"), Err(Failed));
        assert_eq!(rt; sink.write(b"report"), Ok(1));
        assert_eq!(rt; sink.faults, 1);
        Ok(())
    }

    #[test]
    fn takes_a_long_text(rt: HostRuntime) -> Result<(), Fail> {
        let text = [b'x'; 70_000];
        let mut sink = StdSink::new(Vec::new(rt.alloc()));
        assert_eq!(rt; write_all(&mut sink, text.as_slice()), Ok(()));
        assert_eq!(rt; sink.writer.as_slice(), text.as_slice());
        let mut source = StdSource::new(text.as_slice());
        let read = read_all(rt.alloc(), &mut source, 70_000)?;
        assert_eq!(rt; read.as_slice(), text.as_slice());
        Ok(())
    }

    #[test]
    fn reads_from_a_reader(rt: HostRuntime) -> Result<(), Fail> {
        let mut source = StdSource::new(b"vars x\n".as_slice());
        assert_eq!(rt;
            read_all(rt.alloc(), &mut source, 7)?.as_slice(),
            b"vars x\n".as_slice()
        );
        assert_eq!(rt; source.faults, 0);
        let mut source = StdSource::new(Broken);
        assert_eq!(rt; source.read(&mut [0; 4]), Err(Failed));
        assert_eq!(rt; source.read(&mut [0; 4]), Err(Failed));
        assert_eq!(rt; source.faults, 2);
        Ok(())
    }

    #[test]
    fn writes_to_a_writer(rt: HostRuntime) -> Result<(), Fail> {
        let mut sink = StdSink::new(Vec::new(rt.alloc()));
        assert_eq!(rt; write_all(&mut sink, b"report 1\n"), Ok(()));
        assert_eq!(rt; sink.writer.as_slice(), b"report 1\n".as_slice());
        assert_eq!(rt; sink.faults, 0);
        let mut room = [0; 4];
        let mut sink = StdSink::new(room.as_mut_slice());
        assert_eq!(rt; write_all(&mut sink, b"report 1\n"), Err(Fault));
        assert_eq!(rt; sink.faults, 1);
        let mut sink = StdSink::new(Broken);
        assert_eq!(rt; sink.write(b"report"), Err(Failed));
        assert_eq!(rt; sink.faults, 1);
        Ok(())
    }
}
