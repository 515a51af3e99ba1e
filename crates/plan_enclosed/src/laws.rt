// What the sources of a plan enclose.
ghost use Rattle.plan_enclosed.specs.{SourcesEnclose, ZonesEnclose};

use plan_difference::exact_step::difference_solves_it;
use plan_step::laws::differences_have_a_step;

/// What each listed term gives more under the plan lies within its source, whatever the weather.
pub fn sources_enclose()
    ensures { SourcesEnclose }
{
    difference_solves_it();
    differences_have_a_step();
}

/// What flows more between zones lies within the flows in the problem of the differences, whatever the weather.
pub fn zones_enclose()
    ensures { ZonesEnclose }
{
    differences_have_a_step();
}
