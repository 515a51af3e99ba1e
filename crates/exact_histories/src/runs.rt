// What a whole run says of the exact equations of its model.
ghost use Rattle.exact_histories.specs.{RunsHaveAHistory, RunsHaveOneHistory};

/// Where all time steps of a task of one deck have heads, a history of heads solves the exact equations of its model.
pub fn history_exists()
    ensures { RunsHaveAHistory }
{}

/// And one alone: any two are the same heads at all active cells, step by step.
pub fn history_is_one()
    ensures { RunsHaveOneHistory }
{}
