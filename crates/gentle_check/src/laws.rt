// What balances in whole numbers say of the exact balances.
ghost use Rattle.gentle_check.specs.{BalancesEnclose, SignsAreShown};

/// The balance of a problem at listed heads with that of stored water encloses the exact balance.
pub fn balances_enclose()
    ensures { BalancesEnclose }
{}

/// Where the whole numbers have the signs, a step of the listing has them.
pub fn signs_are_shown()
    ensures { SignsAreShown }
{}
