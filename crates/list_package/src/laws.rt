// What a file of lists gives. Each law is the contract of an empty function.
ghost use Rattle.list_package.specs.{ListsKeepLimits};

/// The lists that a file gives are in limits, whatever the file.
#[tactic(auto, using(crate::proofs::ColumnLemmas::lists_keep_limits))]
pub fn lists_keep_limits()
    ensures { ListsKeepLimits }
{}
