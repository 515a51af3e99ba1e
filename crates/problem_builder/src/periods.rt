// Stress periods by their numbers.
ghost use Rattle.std.specs.Prelude.{◌≡◌, ◌≤◌, length};
ghost use Rattle.model_types.specs.{period_at};

use model_types::{FlowModel, Period};

/// The stress period of a number, counted from 1.
pub fn stress_period(model: &FlowModel, number: u32) -> &Period
    requires number { (1 ≤ number) × (number ≤ length model.now.periods) }
    ensures { result.now ≡ period_at model.now number }
{
    &model.periods.as_slice()[number as usize - 1]
}
