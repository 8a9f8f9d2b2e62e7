//! A writer that records what it passes on.

ghost use Rattle.std.specs.Prelude.{◌≡◌, [], List, None, Option, Some, ℕ};
ghost use Rattle.std.specs.Io.KnownBytes.{Appends};
ghost use Rattle.system.specs.inner.Recorded.{Appends-prop};

use crate::sent::{Piece, Sent};
use std::io;
use std::io::Write;
use std::marker::{Brand, PhantomData};

/// What a writer held when recording began, for proofs alone.
pub(crate) trait Begun {
    ghost begun: { Option (List ℕ) };
}

impl Begun for Brand {
    ghost begun = { None };
}

/// Passes bytes on to a writer, and records those that it takes.
#[derive(Drop)]
pub(crate) struct Recorder<W: Write + Drop, B: Begun> {
    sent: Sent,
    out: W,
    of: PhantomData<B>,
    ghost passed: { Appends B.begun (W.contents out) sent.bytes } by { Appends-prop B.begun (W.contents out) sent.bytes },
}

impl<W: Write + Drop, B: Begun> Recorder<W, B> {
    /// Nothing was passed on yet.
    pub(crate) fn new(out: W) -> Recorder<W, B>
        requires { W.contents out ≡ B.begun }
        ensures { result.sent.bytes ≡ [] }
    {
        Recorder {
            sent: Sent::new(),
            out,
            of: PhantomData,
        }
    }

    /// What was passed on, and the writer.
    pub(crate) fn into_parts(self) -> (Sent, W)
        ensures sent { result.0 ≡ self.sent }
        ensures passed { Appends B.begun (W.contents result.1) result.0.bytes }
    {
        let Recorder { sent, out, .. } = self;
        (sent, out)
    }
}

impl<W: Write + Drop, B: Begun> Write for Recorder<W, B> {
    ghost contents = { λ r. Some r.sent.bytes };

    fn write(&mut self, buf: &[u8]) -> io::Result<usize> {
        let count = self.out.write(buf)?;
        let piece = Piece {
            bytes: &buf[..count],
        };
        self.sent = self.sent.then(&piece);
        Ok(count)
    }

    fn flush(&mut self) -> io::Result<()> {
        self.out.flush()
    }
}
