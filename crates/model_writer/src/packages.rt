// The packages of a model, and their files.
ghost use Rattle.std.specs.Prelude.{◌≡◌, ◌++◌, nat_lt, length, IfOk};
ghost use Rattle.std.specs.List.{list_any};
ghost use Rattle.model_types.specs.{HasSize};
ghost use Rattle.array_text.specs.{text};
ghost use Rattle.model_text.specs.{packages, has, lines_of};

use crate::areas::{push_evt, push_rch};
use crate::discretization::{push_bas, push_dis};
use crate::entries::ListEntry;
use crate::flow::push_lpf;
use crate::lines::push_lists;
use model_types::{Entry, FlowModel, Given, Period};
use name_file::Package;
use std::alloc::AllocError;

/// The packages in the order in which they are read.
pub(crate) const PACKAGES: [Package; 10] = [
    Package::Dis,
    Package::Bas,
    Package::Lpf,
    Package::Wel,
    Package::Riv,
    Package::Drn,
    Package::Ghb,
    Package::Rch,
    Package::Chd,
    Package::Evt,
];

fn is_listed<E: ListEntry>(kind: Package, periods: &[Period]) -> bool
    ensures { result ≡ list_any (λ p. nat_lt 0 (length (E.list kind p))) periods.now }
{
    periods
        .iter()
        .any(|period| 0 < E::list_in(kind, period).len())
}

/// Whether the model has a package.
pub(crate) fn has_package(model: &FlowModel, kind: Package) -> bool
    ensures { result ≡ has model.now kind }
{
    let periods = model.periods.as_slice();
    match kind {
        Package::Dis | Package::Bas | Package::Lpf => true,
        Package::Wel | Package::Riv | Package::Drn | Package::Ghb => {
            is_listed::<Entry>(kind, periods)
        }
        Package::Chd => is_listed::<Given>(kind, periods),
        Package::Rch => model.nrchop != 0,
        Package::Evt => model.nevtop != 0,
    }
}

/// Appends the file of a package.
pub(crate) fn push_package(
    bytes: &mut Vec<u8>,
    model: &FlowModel,
    kind: Package,
) -> Result<(), AllocError>
    requires { HasSize model.now.grid }
    ensures { IfOk result (λ _. bytes.new.items ≡ bytes.old.items ++ text (lines_of model.now kind)) }
{
    let periods = model.periods.as_slice();
    match kind {
        Package::Dis => push_dis(bytes, model),
        Package::Bas => push_bas(bytes, model),
        Package::Lpf => push_lpf(bytes, model),
        Package::Wel | Package::Riv | Package::Drn | Package::Ghb => {
            push_lists::<Entry>(bytes, kind, &model.grid, periods)
        }
        Package::Rch => push_rch(bytes, model),
        Package::Chd => push_lists::<Given>(bytes, kind, &model.grid, periods),
        Package::Evt => push_evt(bytes, model),
    }
}
