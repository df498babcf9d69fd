//! What holds of the orders that lines are told of. The function does nothing: its contract is the
//! law.

ghost use Rattle.std.specs.Prelude.{◌≡◌, ℕ, List};
ghost use Rattle.std.specs.List.Sorted.{IsPermutation};
ghost use Rattle.wal_page.specs.Order.{Entry, FollowsFrom};
ghost use Rattle.run_laws.specs.Told.{sorted_by_start};

/// A law: an order without a gap is settled by its entries. It is these, sorted by their starts.
pub fn order_is_sorted()
    ensures { (size position : ℕ) (entries order : List Entry) → IsPermutation entries order
        → FollowsFrom size position order → order ≡ sorted_by_start entries }
{}
