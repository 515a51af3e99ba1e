// What listed heads that hold say of a step.
ghost use Rattle.gentle_steps.specs.{HeldStepsHaveSigns};

/// Listed heads that hold have the signs, from all exact heads within the listed ones before the step.
pub fn held_steps_have_signs()
    ensures { HeldStepsHaveSigns }
{}
