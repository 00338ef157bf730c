// Whole pieces for a sink.
ghost use Rattle.std.specs.Prelude.{◌≡◌, [], ◌++◌};
ghost use Rattle.wal_outside.specs.Sending.{Sends};

use crate::sink::{Sink, WriteFault};

/// Hands the whole piece to the sink, in as many calls as it takes. An empty piece makes no call.
///
/// # Errors
/// `Failed` where a call failed or took nothing, and `Memory` where a call had none: the bytes that were appended are a
/// prefix of the piece and not all of it. No call is made after that one.
pub fn send<K: Sink>(out: &mut K, piece: &[u8]) -> Result<(), WriteFault>
    ensures sent { Sends (K.view out.old) piece.now result (K.view out.new) }
    ensures empty { piece.now ≡ [] → (result ≡ Ok tt) × (out.new ≡ out.old) }
{
    let mut at = 0;
    'pieces: while at < piece.len() {
        match out.write(&piece[at..]) {
            Ok(0) => return Err(WriteFault::Failed),
            Ok(taken) => at += taken,
            Err(fault) => return Err(fault),
        }
    }
    Ok(())
}

/// Hands over two pieces, one after the other, as `send` does.
///
/// # Errors
/// As `send`: what was appended is a prefix of the two.
pub fn send_two<K: Sink>(out: &mut K, first: &[u8], second: &[u8]) -> Result<(), WriteFault>
    ensures { Sends (K.view out.old) (first.now ++ second.now) result (K.view out.new) }
{
    send(out, first)?;
    send(out, second)
}

/// Hands over four pieces, one after the other, as `send` does.
///
/// # Errors
/// As `send`: what was appended is a prefix of the four.
pub fn send_four<K: Sink>(
    out: &mut K,
    first: &[u8],
    second: &[u8],
    third: &[u8],
    fourth: &[u8],
) -> Result<(), WriteFault>
    ensures { Sends (K.view out.old) ((first.now ++ second.now) ++ (third.now ++ fourth.now)) result (K.view out.new) }
{
    send_two(out, first, second)?;
    send_two(out, third, fourth)
}
