// The laws of lists in an order, each the contract of a function that does nothing when it runs. A caller whose
// proof needs a law calls its function.

ghost use Rattle.order_laws.specs.OrderLaws.{ListsInOrderAreOne, RisingListsAreOne, DistinctKeysRise, SortsByKeyAreOne};
ghost use Rattle.order_laws.specs.OrderLaws.{MapsKeepOrders, OrdersAreShort, LeastNumbersAreLeast};

/// The least number below another that passes a test passes it, and no lower one does; where there is none, none passes.
pub fn least_numbers_are_least()
    ensures { LeastNumbersAreLeast }
{}

/// Elements in whatever order have one list in which each comes before all later ones.
pub fn lists_in_order_are_one<X>()
    ensures { ListsInOrderAreOne X }
{}

/// A list in which a key rises is determined by its elements.
pub fn rising_lists_are_one<X>()
    ensures { RisingListsAreOne X }
{}

/// Keys that differ and don't fall rise.
pub fn distinct_keys_rise<X>()
    ensures { DistinctKeysRise X }
{}

/// A sort by a key that differs leaves one list.
pub fn sorts_by_key_are_one<X>()
    ensures { SortsByKeyAreOne X }
{}

/// A map that keeps an order makes of the list in order the list of what it makes, in order.
pub fn maps_keep_orders<X, Y>()
    ensures { MapsKeepOrders X Y }
{}

/// A list in order is no longer than its elements.
pub fn orders_are_short<X>()
    ensures { OrdersAreShort X }
{}
