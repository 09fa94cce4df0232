ghost use Rattle.std.specs.Prelude.{ℕ, ◌≡◌, ◌≢◌, ◌+◌, ◌-◌, ◌<◌, ◌≤◌, ◌^◌, ◌⊎◌, [], take, length, Some, None, option_map, false, IfOk, IfSome, IsSome, IsSomeAnd, OnOk, OnErr, IsTrue};
ghost use Rattle.pf_io.specs.Store.{after_open, after_read, after_write};
ghost use Rattle.pf_io.specs.Transfer.{IsSameButUnread, ReadsPart, HasSourceAfter, read_all_counted, write_all_counted};

use crate::store::{Store, StoreErr};
use std::alloc::Global;
use thiserror::Error;

/// Why a file was not read whole.
#[derive(Clone, Copy, Debug, PartialEq, Eq, Hash, Error)]
pub enum ReadFault {
    /// The store failed to open the file, which it counted.
    #[error("the file can't be opened")]
    CannotOpen,
    /// The store failed to read, which it counted.
    #[error("the file can't be read")]
    ReadFailed,
    /// The file has more bytes than the limit.
    #[error("the file is too large")]
    TooLarge,
    /// Memory ran out.
    #[error("out of memory")]
    Memory,
}

/// Why a piece was not written whole.
#[derive(Clone, Copy, Debug, PartialEq, Eq, Hash, Error)]
pub enum WriteFault {
    /// The store failed to write, which it counted.
    #[error("the file can't be written")]
    WriteFailed,
    /// Memory ran out.
    #[error("out of memory")]
    Memory,
}

/// The named file whole, if it has at most `limit` bytes. No more than `limit + 1` bytes are read.
pub fn read_all<S: Store>(
    alloc: Global,
    store: &mut S,
    name: &str,
    limit: usize,
) -> Result<Vec<u8>, ReadFault>
    requires limit { limit ≤ 2 ^ 28 }
    requires opens { (S.faults store.old).opens < 2 ^ 64 - 1 }
    requires reads { (S.faults store.old).reads < 2 ^ 64 - 1 }

    ensures whole { IfOk result (λ v. IfSome (S.told store.old) (λ t. t.files name.now ≡ Some v.items)) }
    ensures within { IfOk result (λ v. length v.items ≤ limit) }
    // The source was read to its end.
    ensures end { OnOk result (IfSome (S.told store.new) (λ t. t.unread ≡ [])) }
    ensures all_read { IfOk result (λ v. S.told store.new
        ≡ option_map (λ t. after_read (length v.items) (after_open name.now t)) (S.told store.old)) }
    ensures too_large { result ≡ Err ReadFault.TooLarge
        → IfSome (S.told store.old) (λ t. IsSomeAnd (t.files name.now) (λ bytes. limit < length bytes)) }
    ensures one_more_read { result ≡ Err ReadFault.TooLarge
        → S.told store.new ≡ option_map (λ t. after_read (limit + 1) (after_open name.now t)) (S.told store.old) }
    // No other answer comes after so many bytes.
    ensures part_read { result ≡ Err ReadFault.ReadFailed
        → ReadsPart name.now limit (S.told store.old) (S.told store.new) }
    ensures part_kept { result ≡ Err ReadFault.Memory
        → (S.told store.new ≡ S.told store.old) ⊎ ReadsPart name.now limit (S.told store.old) (S.told store.new) }
    ensures there { result ≡ Err ReadFault.ReadFailed → IfSome (S.told store.old) (λ t. IsSome (t.files name.now)) }

    ensures kept { IsSameButUnread (S.told store.old) (S.told store.new) }
    ensures not_opened { result ≡ Err ReadFault.CannotOpen → S.told store.new ≡ S.told store.old }
    ensures source { HasSourceAfter result (S.has_source store.old) (S.has_source store.new) }
    ensures sink { S.has_sink store.new ≡ S.has_sink store.old }
    ensures faults { S.faults store.new ≡ read_all_counted result (S.faults store.old) }

    ensures stays_steady { IsTrue (S.is_steady store.old) → IsTrue (S.is_steady store.new) }
    ensures steady_open { IsTrue (S.is_steady store.old) → result ≡ Err ReadFault.CannotOpen
        → IfSome (S.told store.old) (λ t. t.files name.now ≡ None) }
    ensures steady_read { IsTrue (S.is_steady store.old) → result ≢ Err ReadFault.ReadFailed }
{
    // The most bytes that one read asks for.
    const PIECE: usize = 1 << 16;

    match store.open(name) {
        Ok(()) => {}
        Err(StoreErr::Failed) => return Err(ReadFault::CannotOpen),
        Err(StoreErr::Memory) => return Err(ReadFault::Memory),
    }
    let Ok(mut buffer) = vec![in alloc; 0u8; PIECE.min(limit + 1)] else {
        return Err(ReadFault::Memory);
    };
    let mut bytes = Vec::new(alloc);
    loop {
        let most = buffer.len().min(limit + 1 - bytes.len());
        let piece = &mut buffer[..most];
        let n = match store.read(piece) {
            Ok(n) => n,
            Err(StoreErr::Failed) => return Err(ReadFault::ReadFailed),
            Err(StoreErr::Memory) => return Err(ReadFault::Memory),
        };
        if n == 0 {
            return Ok(bytes);
        }
        if bytes.len() + n > limit {
            return Err(ReadFault::TooLarge);
        }
        if bytes.extend_from_slice(&piece[..n]).is_err() {
            return Err(ReadFault::Memory);
        }
    }
}

/// Appends the whole piece to the sink. After a fault a prefix of it was appended.
pub fn write_all<S: Store>(store: &mut S, piece: &[u8]) -> Result<(), WriteFault>
    requires { (S.faults store.old).writes < 2 ^ 64 - 1 }

    ensures written { OnOk result (S.told store.new ≡ option_map (after_write piece.now) (S.told store.old)) }
    ensures err { OnErr result ((n : ℕ) × (n ≤ length piece.now)
        × (S.told store.new ≡ option_map (after_write (take n piece.now)) (S.told store.old))) }

    ensures open { OnOk result (IsTrue (S.has_sink store.old)) }
    ensures source { S.has_source store.new ≡ S.has_source store.old }
    ensures sink { S.has_sink store.new ≡ S.has_sink store.old }
    ensures faults { S.faults store.new ≡ write_all_counted result (S.faults store.old) }

    ensures stays_steady { IsTrue (S.is_steady store.old) → IsTrue (S.is_steady store.new) }
    ensures steady { IsTrue (S.is_steady store.old) → result ≡ Err WriteFault.WriteFailed
        → S.has_sink store.old ≡ false }
{
    let mut done = 0;
    loop {
        done += match store.write(&piece[done..]) {
            Ok(n) => n,
            Err(StoreErr::Failed) => return Err(WriteFault::WriteFailed),
            Err(StoreErr::Memory) => return Err(WriteFault::Memory),
        };
        if done == piece.len() {
            return Ok(());
        }
    }
}
