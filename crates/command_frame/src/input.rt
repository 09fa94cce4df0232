ghost use Rattle.std.specs.Prelude.{◌≤◌, ◌^◌, length, IfOk};
ghost use Rattle.command_frame.specs.Reading.{IsItself, ReadsInput};
ghost use Rattle.command_frame.specs.Standing.{standing};
ghost use Rattle.command_frame.specs.Status.{HasRoom};
ghost use Rattle.command_frame.specs.Verdict.{Within};

use crate::status::{Status, StoreCall};
use pf_io::{ReadFault, Store, read_all};
use std::alloc::Global;

/// The text of an input whole. One of more than `limit` bytes is refused as `too_large`.
pub fn load<R: Copy, F, S: Store>(
    alloc: Global,
    store: &mut S,
    name: &str,
    limit: usize,
    too_large: R,
) -> Result<Vec<u8>, Status<R, F>>
    requires limit { limit ≤ 2 ^ 28 }
    requires room { HasRoom (S.faults store.old) }

    ensures reads { ReadsInput (Within limit too_large IsItself) (λ v. v.items) name.now result
        (standing (S.told store.old) (S.faults store.old) (S.is_steady store.old))
        (standing (S.told store.new) (S.faults store.new) (S.is_steady store.new)) }
    ensures within { IfOk result (λ v. length v.items ≤ limit) }
{
    match read_all(alloc, store, name, limit) {
        Ok(bytes) => Ok(bytes),
        Err(ReadFault::CannotOpen) => Err(Status::StoreFault(StoreCall::Open)),
        Err(ReadFault::ReadFailed) => Err(Status::StoreFault(StoreCall::Read)),
        Err(ReadFault::TooLarge) => Err(Status::Refused(too_large)),
        Err(ReadFault::Memory) => Err(Status::Memory),
    }
}
