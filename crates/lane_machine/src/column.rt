ghost use Rattle.std.specs.Prelude.{◌≡◌, ◌<◌, slice_index_or, pos, false};
ghost use Rattle.lane_code.specs.Steps.{number_at as number_in, mask_at as mask_in};
ghost use Rattle.lane_machine.specs.Columns.{numbers_at, masks_at};

/// How many items are worked on at a time.
pub const LANES: usize = 64;

/// A number for each lane.
pub(crate) type Column = [i64; LANES];

/// A truth value for each lane.
pub(crate) type Mask = [bool; LANES];

/// The number of a register in a lane. A register that isn't there holds 0.
pub(crate) fn number_at(numbers: &[Box<Column>], register: u32, lane: usize) -> i64
    requires { lane < LANES }
    ensures { result ≡ number_in (numbers_at numbers.now lane) register }
{
    match numbers.get(register as usize) {
        Some(column) => column[lane],
        None => 0,
    }
}

/// The truth of a mask in a lane. A mask that isn't there is false.
pub(crate) fn mask_at(masks: &[Box<Mask>], register: u32, lane: usize) -> bool
    requires { lane < LANES }
    ensures { result ≡ mask_in (masks_at masks.now lane) register }
{
    match masks.get(register as usize) {
        Some(column) => column[lane],
        None => false,
    }
}
