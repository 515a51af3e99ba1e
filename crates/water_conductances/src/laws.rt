// What the pairs of faces enclose.
ghost use Rattle.water_conductances.specs.{PairsEnclose};

/// A pair encloses the conductance at all heads within the bounds, with saturated thickness where the layer is convertible.
pub fn pairs_enclose()
    ensures { PairsEnclose }
{}
