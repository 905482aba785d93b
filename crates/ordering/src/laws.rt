ghost use Rattle.std.specs.Prelude.{◌≡◌, ℕ, List};
ghost use Rattle.ordering.specs.Orders.{IsOrder};
ghost use Rattle.ordering.specs.Entries.{Entry, IsVertex, NamesInput};

/// Some entries have one order.
pub fn order_is_determined()
    ensures { (entries : List Entry) (one other : List ℕ) → IsOrder (IsVertex entries) (NamesInput entries) one
        → IsOrder (IsVertex entries) (NamesInput entries) other → one ≡ other }
{}
