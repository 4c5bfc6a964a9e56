ghost use Rattle.std.specs.Prelude.{◌≡◌, ◌≢◌, ℕ, ◌+◌, ◌<◌, ◌≤◌, ◌++◌, Err, length, take, vec_len, IfOk, IfErr, IfSome};
ghost use Rattle.std.specs.Prelude.{OnOk, OnErr, is_some};
ghost use Rattle.std.specs.Io.KnownBytes.{Appends, Consumes, IsAtEnd};
ghost use Rattle.site_io.specs.Faults.{Rose, HasCause};
ghost use Rattle.site_io.specs.Streams.{AppendsFront, ConsumesFront, ConsumesPast};

use crate::stream::{Failed, Sink, Source};
use std::alloc::Global;

/// Why the whole of a source was not read.
#[derive(Clone, Copy, Debug, PartialEq, Eq)]
pub enum Unread {
    /// The source has more bytes than the limit.
    TooLong,
    /// A read failed.
    ReadFault,
    /// There was not enough memory.
    Memory,
}

/// How many bytes a read asks for at most.
const BLOCK: usize = 65536;

/// A block to read into.
fn block_of(alloc: Global, size: usize) -> Result<Vec<u8>, Unread>
    ensures size { IfOk result (λ block. vec_len block ≡ size) }
    ensures memory { IfErr result (λ unread. unread ≡ Unread.Memory) }
{
    vec![in alloc; 0; size].map_err(|_| Unread::Memory)
}

/// Reads once into the block, and appends what came to the bytes that were read before.
///
/// Answers how many came: 0 for a block that isn't empty is the end of input.
#[tactic(auto, using(crate::proofs::Moves::read_once, std::proofs::lemmas::Grind::common_steps))]
fn read_more<S: Source>(
    source: &mut S,
    block: &mut [u8],
    all: &mut Vec<u8>,
) -> Result<usize, Unread>
    ensures bound { IfOk result (λ count. count ≤ length block.new) }
    ensures items { IfOk result (λ count. all.new.items ≡ all.old.items ++ take count block.new) }
    ensures len { IfOk result (λ count. vec_len all.new ≡ vec_len all.old + count) }
    ensures bytes { IfOk result (λ count.
        Consumes (S.left source.old) (S.left source.new) (take count block.new)) }
    ensures end { IfOk result (λ count.
        count ≡ 0 → 0 < length block.old → IsAtEnd (S.left source.new)) }

    ensures fault { result ≡ Err Unread.ReadFault → Rose (S.faults source.old) (S.faults source.new) }
    ensures in_time { result ≢ Err Unread.TooLong }
    ensures front { ConsumesFront (S.left source.old) (S.left source.new) (length block.old) }

    ensures told { is_some (S.left source.new) ≡ is_some (S.left source.old) }
    ensures later { S.faults source.old ≤ S.faults source.new }
{
    let Ok(count) = source.read(block) else {
        return Err(Unread::ReadFault);
    };
    if all.extend_from_slice(&block[..count]).is_err() {
        return Err(Unread::Memory);
    }
    Ok(count)
}

/// Reads a source to its end, or until one byte more than `limit` was read.
///
/// It takes a block of 64 KiB to read into, and the bytes themselves as they come. After an error
/// a front of the bytes that were left is gone, of at most `limit + 1` bytes.
#[tactic(auto, using(crate::proofs::Moves::whole_read, std::proofs::lemmas::Grind::common_steps))]
pub fn read_all<S: Source>(alloc: Global, source: &mut S, limit: usize) -> Result<Vec<u8>, Unread>
    ensures whole { IfOk result (λ bytes. IfSome (S.left source.old) (λ all. bytes.items ≡ all)) }
    ensures end { OnOk result (IsAtEnd (S.left source.new)) }
    ensures within { IfOk result (λ bytes. vec_len bytes ≤ limit) }

    ensures longer { result ≡ Err Unread.TooLong →
        IfSome (S.left source.old) (λ all. limit < length all) }
    ensures past { result ≡ Err Unread.TooLong →
        ConsumesPast (S.left source.old) (S.left source.new) limit }
    ensures fault { result ≡ Err Unread.ReadFault → Rose (S.faults source.old) (S.faults source.new) }
    ensures front { ConsumesFront (S.left source.old) (S.left source.new) (limit + 1) }

    ensures told { is_some (S.left source.new) ≡ is_some (S.left source.old) }
    ensures later { S.faults source.old ≤ S.faults source.new }
{
    let mut block = block_of(alloc, BLOCK)?;
    let mut all = Vec::new(alloc);
    while all.len() <= limit {
        let most = (limit - all.len()).min(BLOCK - 1) + 1;
        if read_more(source, &mut block[..most], &mut all)? == 0 {
            return Ok(all);
        }
    }
    Err(Unread::TooLong)
}

/// Writes a whole piece to a sink, in as many calls as it needs. Takes no memory.
///
/// After an error a front of the piece was appended.
#[tactic(auto, using(crate::proofs::Moves::piece_written), unfolding(crate::specs::Streams::AppendsFront))]
pub fn write_all<K: Sink>(sink: &mut K, piece: &[u8]) -> Result<(), Failed>
    ensures whole { OnOk result (Appends (K.held sink.old) (K.held sink.new) piece.now) }
    ensures front { AppendsFront (K.held sink.old) (K.held sink.new) piece.now }
    ensures told { is_some (K.held sink.new) ≡ is_some (K.held sink.old) }
    ensures cause { HasCause (K.faults sink.old) (K.faults sink.new) result }
{
    let mut done = 0;
    while done < piece.len() {
        done += sink.write(&piece[done..])?;
    }
    Ok(())
}
