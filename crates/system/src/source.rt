//! Files, one of which has already been read: the source.

ghost use Rattle.std.specs.Prelude.{◌≡◌};
ghost use Rattle.system.specs.Tests.{with_source};
ghost use Rattle.system.specs.inner.Opened.{rest_of};

use serving::Files;
use std::io;
use std::io::Read;

/// An opened file: the source, or another one.
#[derive(Drop)]
pub(crate) enum Opened<'a, R> {
    Source(&'a [u8]),
    Other(R),
}

impl<R: Read> Read for Opened<'_, R> {
    ghost remaining = { rest_of R.remaining };

    fn read(&mut self, buf: &mut [u8]) -> io::Result<usize> {
        match self {
            Opened::Source(bytes) => bytes.read(buf),
            Opened::Other(other) => other.read(buf),
        }
    }
}

/// Files, one of which has already been read.
#[derive(Drop)]
pub(crate) struct WithSource<'a, F> {
    pub(crate) files: &'a F,
    pub(crate) name: &'a str,
    pub(crate) bytes: &'a [u8],
}

impl<'a, F: Files> Files for WithSource<'a, F> {
    type File = Opened<'a, F::File>;

    ghost contents = { λ s name. with_source s.name.now s.bytes.now (F.contents s.files.now) name };

    fn open(&self, name: &str) -> io::Result<Opened<'a, F::File>> {
        if name == self.name {
            return Ok(Opened::Source(self.bytes));
        }
        match self.files.open(name) {
            Ok(file) => Ok(Opened::Other(file)),
            Err(error) => Err(error),
        }
    }
}
