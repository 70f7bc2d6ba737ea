//! A source over a reader, and a sink over a writer: the edge to the system.
ghost use Rattle.std.specs.Prelude.{◌≡◌, None};

use crate::sink::Sink;
use crate::source::{Failed, Source};
use std::io::{Read, Write};
use std::marker::Model;

/// A reader as a source, which tells what the reader tells: of a file or a terminal nothing. Each error that the reader
/// gives is a fault.
#[derive(Drop)]
pub struct FileSource<R: Read> {
    reader: R,
    // How many reads failed.
    faults: u64,
}

impl<R: Read> Model for FileSource<R> {
    ghost use Rattle.co_io.specs.Files.{OverReader};

    ghost Value = { OverReader R };

    ghost view = { λ s. record { reader = s.reader; faults = s.faults } };
}

impl<R: Read> FileSource<R> {
    /// The source over this reader, which had no fault yet.
    pub fn new(reader: R) -> FileSource<R>
        ensures { result ≡ record { reader = reader; faults = 0 } }
    {
        FileSource { reader, faults: 0 }
    }
}

impl<R: Read> Source for FileSource<R> {
    ghost left = { λ source. R.remaining source.reader };

    ghost faults = { λ source. source.faults };

    fn read(&mut self, buf: &mut [u8]) -> Result<usize, Failed> {
        match self.reader.read(buf) {
            Ok(count) => Ok(count),
            Err(_) => {
                self.faults = self.faults.saturating_add(1);
                Err(Failed)
            }
        }
    }
}

/// A writer as a sink, which tells what the writer tells: of a file or a terminal nothing. Each error that the writer
/// gives is a fault. It tells no room.
#[derive(Drop)]
pub struct FileSink<W: Write> {
    writer: W,
    // How many writes failed.
    faults: u64,
    // How many writes took nothing of a piece that was not empty.
    idle: u64,
}

impl<W: Write> Model for FileSink<W> {
    ghost use Rattle.co_io.specs.Files.{OverWriter};

    ghost Value = { OverWriter W };

    ghost view = { λ s. record { writer = s.writer; faults = s.faults; idle = s.idle } };
}

impl<W: Write> FileSink<W> {
    /// The sink over this writer, which had no fault yet.
    pub fn new(writer: W) -> FileSink<W>
        ensures { result ≡ record { writer = writer; faults = 0; idle = 0 } }
    {
        FileSink {
            writer,
            faults: 0,
            idle: 0,
        }
    }
}

impl<W: Write> Sink for FileSink<W> {
    ghost held = { λ sink. W.contents sink.writer };

    ghost room = { λ _. None };

    ghost faults = { λ sink. sink.faults };

    ghost idle = { λ sink. sink.idle };

    fn write(&mut self, piece: &[u8]) -> Result<usize, Failed> {
        match self.writer.write(piece) {
            Ok(count) => {
                if count == 0 && !piece.is_empty() {
                    self.idle = self.idle.saturating_add(1);
                }
                Ok(count)
            }
            Err(_) => {
                self.faults = self.faults.saturating_add(1);
                Err(Failed)
            }
        }
    }
}
