// The laws of lists of anything in an order, and of their parts.
// It stands on nothing but std.
#![tactic(auto)]

mod in_order;
mod parts;

pub use in_order::{
    distinct_keys_rise, least_numbers_are_least, lists_in_order_are_one, maps_keep_orders,
    orders_are_short, rising_lists_are_one, sorts_by_key_are_one,
};
pub use parts::{
    different_are_few, different_in_any_order, parts_by_key_are_all, parts_keep_permutations,
    tests_keep_permutations, tests_keep_spans, tests_keep_what_passes,
};
