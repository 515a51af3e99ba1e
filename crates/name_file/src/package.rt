/// A package of a model: discretization, basic, layer-property flow, well, river, drain,
/// general-head boundary, recharge, time-variant specified head, evapotranspiration.
#[derive(Clone, Copy, Debug, PartialEq, Eq, Hash)]
pub enum Package {
    Dis,
    Bas,
    Lpf,
    Wel,
    Riv,
    Drn,
    Ghb,
    Rch,
    Chd,
    Evt,
}
