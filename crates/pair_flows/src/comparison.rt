// Heads of which each cell's balance is known to be above or below another's.
ghost use Rattle.pair_flows.specs.{OrderLaw, SignsEnclose};

/// Where what one cell of a pair gets the other gives, and flows into cells that are higher aren't greater, heads at which cells gain more lie nowhere above.
pub fn greater_balances_lie_lower()
    ensures { OrderLaw }
{}

/// Strict signs of the balances enclose every solution, and what is near to one, on both sides.
pub fn signs_enclose()
    ensures { SignsEnclose }
{}
