//! All of some bytes into a sink.
ghost use Rattle.std.specs.Prelude.{◌≡◌, ◌≤◌, length, OnOk, OnErr};
ghost use Rattle.std.specs.List.{concat};
ghost use Rattle.std.specs.Io.KnownBytes.{Appends};
ghost use Rattle.co_io.specs.Counts.{Rose};
ghost use Rattle.co_io.specs.Room.{Fills, IsTooSmallFor};
ghost use Rattle.co_io.specs.Writing.{AppendsFront};

use crate::sink::Sink;
use crate::source::Failed;
use co_sbt::Seq;

/// Why not all was written.
#[derive(Clone, Copy, Debug, PartialEq, Eq, Drop)]
pub enum WriteEnd {
    /// A write to the sink failed.
    Fault,
    /// The sink took none of a piece that was not empty.
    Stalled,
}

/// Writes all bytes, which takes no memory. After an error a proper front of them was written, perhaps none.
///
/// Fault only where the sink's faults rose in this call, Stalled only where its idle writes did, and never where the
/// sink tells that it has room for the bytes.
pub fn write_all<K: Sink>(sink: &mut K, bytes: &[u8]) -> Result<(), WriteEnd>
    ensures ok { OnOk result (Appends (K.held sink.old) (K.held sink.new) bytes.now) }
    ensures err { OnErr result (AppendsFront (K.held sink.old) (K.held sink.new) bytes.now) }
    ensures room { OnOk result (Fills (K.room sink.old) (K.room sink.new) (length bytes.now)) }
    ensures faults { K.faults sink.old ≤ K.faults sink.new }
    ensures idle { K.idle sink.old ≤ K.idle sink.new }
    ensures fault { result ≡ Err WriteEnd.Fault → Rose (K.faults sink.old) (K.faults sink.new) }
    ensures stalled { result ≡ Err WriteEnd.Stalled → Rose (K.idle sink.old) (K.idle sink.new) }
    ensures full { result ≡ Err WriteEnd.Stalled → IsTooSmallFor (length bytes.now) (K.room sink.old) }
{
    let mut rest = bytes;
    while !rest.is_empty() {
        match sink.write(rest) {
            Ok(0) => return Err(WriteEnd::Stalled),
            Ok(count) => rest = &rest[count..],
            Err(Failed) => return Err(WriteEnd::Fault),
        }
    }
    Ok(())
}

/// Writes all bytes of some pieces, one piece after the other, as `write_all` does of the pieces joined. It takes no memory.
pub fn write_pieces<K: Sink>(sink: &mut K, pieces: &[Seq<u8>]) -> Result<(), WriteEnd>
    ensures ok { OnOk result (Appends (K.held sink.old) (K.held sink.new) (concat pieces.now)) }
    ensures err { OnErr result (AppendsFront (K.held sink.old) (K.held sink.new) (concat pieces.now)) }
    ensures room { OnOk result (Fills (K.room sink.old) (K.room sink.new) (length (concat pieces.now))) }
    ensures faults { K.faults sink.old ≤ K.faults sink.new }
    ensures idle { K.idle sink.old ≤ K.idle sink.new }
    ensures fault { result ≡ Err WriteEnd.Fault → Rose (K.faults sink.old) (K.faults sink.new) }
    ensures stalled { result ≡ Err WriteEnd.Stalled → Rose (K.idle sink.old) (K.idle sink.new) }
    ensures full { result ≡ Err WriteEnd.Stalled → IsTooSmallFor (length (concat pieces.now)) (K.room sink.old) }
{
    for piece in pieces {
        write_all(sink, piece.as_slice())?;
    }
    Ok(())
}
