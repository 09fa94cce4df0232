ghost use Rattle.std.specs.Prelude.{◌≡◌, IfOk, vec_len};

use crate::column::{Column, LANES, Mask};
use std::alloc::{AllocError, Global};

/// The registers of a block of lanes, and room to write one anew.
#[derive(Debug, PartialEq, Drop)]
pub(crate) struct Registers {
    pub(crate) numbers: Vec<Box<Column>>,
    pub(crate) masks: Vec<Box<Mask>>,
    pub(crate) spare: Box<Column>,
    pub(crate) spare_mask: Box<Mask>,
}

impl Registers {
    /// So many registers of numbers, and so many of masks.
    pub(crate) fn new(alloc: Global, numbers: u32, masks: u32) -> Result<Registers, AllocError>
        ensures numbers { IfOk result (λ registers. vec_len registers.numbers ≡ numbers) }
        ensures masks { IfOk result (λ registers. vec_len registers.masks ≡ masks) }
    {
        Ok(Registers {
            numbers: columns(alloc, numbers)?,
            masks: mask_columns(alloc, masks)?,
            spare: Box::new(alloc, [0; LANES])?,
            spare_mask: Box::new(alloc, [false; LANES])?,
        })
    }
}

fn columns(alloc: Global, count: u32) -> Result<Vec<Box<Column>>, AllocError>
    ensures { IfOk result (λ columns. vec_len columns ≡ count) }
{
    let mut columns = Vec::new(alloc);
    for _register in 0..count {
        columns.push(Box::new(alloc, [0; LANES])?)?;
    }
    Ok(columns)
}

fn mask_columns(alloc: Global, count: u32) -> Result<Vec<Box<Mask>>, AllocError>
    ensures { IfOk result (λ columns. vec_len columns ≡ count) }
{
    let mut columns = Vec::new(alloc);
    for _register in 0..count {
        columns.push(Box::new(alloc, [false; LANES])?)?;
    }
    Ok(columns)
}
