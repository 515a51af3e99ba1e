// A model as it was read.
use crate::grid::Grid;
use crate::listed::Listed;
use crate::period::Period;
use decimal_input::dec::Dec;

/// A model. Lists are by cell, but `layvka` is by layer. `ss` is empty where no period is transient; `nrchop` and
/// `nevtop` are 0 where the model lacks RCH and EVT. A part that isn't read yet is empty, false or 0.
#[derive(Drop)]
pub struct FlowModel {
    pub grid: Grid,
    pub lenuni: i64,
    pub ibound: Listed<i64>,
    pub strt: Listed<Dec>,
    pub layvka: Listed<i64>,
    pub coefficient: bool,
    pub hk: Listed<Dec>,
    pub hani: Listed<Dec>,
    pub vka: Listed<Dec>,
    pub ss: Listed<Dec>,
    pub vkcb: Listed<Dec>,
    pub nrchop: i64,
    pub nevtop: i64,
    pub periods: Listed<Period>,
}
