// Laws of the numbers that are read. Each is the contract of an empty function.
ghost use Rattle.array_reader.specs.{IntegersFollowGrammar, NumbersFollowGrammar, ProductsAreExact};

/// A word is read as an integer exactly where it is one by the grammar.
pub fn integers_follow_the_grammar()
    ensures { IntegersFollowGrammar }
{}

/// A word is read as the number, or refused with the fault, that it names by the grammar.
#[tactic(auto, using(crate::proofs::NumberLemmas::numbers_are))]
pub fn numbers_follow_the_grammar()
    ensures { NumbersFollowGrammar }
{}

/// A product is the canonical form of the exact product, or the first test that it fails.
pub fn products_are_exact()
    ensures { ProductsAreExact }
{}
