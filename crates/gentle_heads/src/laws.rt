// What the test says of heads.
ghost use Rattle.gentle_heads.specs.{AllBetweenAreGentle};

/// Where the test passes, all heads between the listed ones are gentle, whether they are whole numbers of 10^-9 or not.
pub fn all_between_are_gentle()
    ensures { AllBetweenAreGentle }
{}
