// What the words ask for.
ghost use Rattle.std.specs.Prelude.{◌≤◌, IfSome};
ghost use Rattle.std.proofs.Props.{props};
ghost use Rattle.command_line.specs.Ranges.{AreSettlersNumbers, AreTurns, IsMakeable};

use model_types::Limits;

/// What the words ask for.
#[derive(Clone, Copy)]
pub enum Order<'a> {
    Run(RunOrder<'a>),
    Plan(PlanOrder<'a>),
    Check(CheckOrder<'a>),
    CheckPlan(PlanCheckOrder<'a>),
    /// Of a model with convertible layers; without a second deck.
    CheckConvertible(CheckOrder<'a>),
    CheckText(TextOrder<'a>),
    Make(MakeOrder),
    Batch(BatchOrder<'a>),
    /// The deck of a model, written anew.
    Write { limits: Limits, name: &'a str },
    /// Every command and option, with what it does.
    Words,
}

/// The listing of a model; with `to` that of every model between two. `watch` is the number of views in each phase, if the
/// heads are viewed; where it is `quick`, a step may have any pair that is a certificate; where `deck`, the text of the deck comes
/// first.
#[derive(Clone, Copy)]
pub struct RunOrder<'a> {
    pub limits: Limits,
    pub name: &'a str,
    pub to: Option<&'a str>,
    pub digits: u32,
    pub workers: u32,
    pub rounds: u32,
    pub zones: Option<&'a str>,
    pub watch: Option<u32>,
    pub quick: bool,
    pub deck: bool,
    ghost in_range: { (digits ≤ 18) × AreSettlersNumbers workers rounds },
    ghost watched: { IfSome watch (AreTurns quick) } by { Prim.hlevel props },
}

/// What the wells of a plan do to the heads of a model; with `to` to those of every model between two. Where it is `quick`, a step may
/// have any pairs that are certificates.
#[derive(Clone, Copy)]
pub struct PlanOrder<'a> {
    pub limits: Limits,
    pub name: &'a str,
    pub to: Option<&'a str>,
    pub wells: &'a str,
    pub digits: u32,
    pub workers: u32,
    pub rounds: u32,
    pub zones: Option<&'a str>,
    pub quick: bool,
    ghost in_range: { (digits ≤ 18) × AreSettlersNumbers workers rounds },
}

/// Whether a listing is certified; with `to` one of every model between two.
#[derive(Clone, Copy)]
pub struct CheckOrder<'a> {
    pub limits: Limits,
    pub name: &'a str,
    pub to: Option<&'a str>,
    pub listing: &'a str,
    pub digits: u32,
    pub zones: Option<&'a str>,
    ghost in_range: { digits ≤ 18 },
}

/// Whether a listing of what the wells of a plan do is certified.
#[derive(Clone, Copy)]
pub struct PlanCheckOrder<'a> {
    pub check: CheckOrder<'a>,
    pub wells: &'a str,
}

/// Whether a listing that stands in one text with its decks is certified.
#[derive(Clone, Copy)]
pub struct TextOrder<'a> {
    pub limits: Limits,
    pub text: &'a str,
    pub digits: u32,
    ghost in_range: { digits ≤ 18 },
}

/// A model that is made, and its summary.
#[derive(Clone, Copy)]
pub struct MakeOrder {
    pub seed: u32,
    pub size: u32,
    ghost in_range: { IsMakeable seed size },
}

/// The listings of the models that a list names, each by one of the workers.
#[derive(Clone, Copy)]
pub struct BatchOrder<'a> {
    pub limits: Limits,
    pub list: &'a str,
    pub digits: u32,
    pub workers: u32,
    pub rounds: u32,
    pub quick: bool,
    ghost in_range: { (digits ≤ 18) × AreSettlersNumbers workers rounds },
}

/// Why the words have no order.
#[derive(Clone, Copy, Debug)]
pub enum WordsFault {
    /// They don't form a command.
    Usage,
    /// Memory ran out.
    Memory,
}
