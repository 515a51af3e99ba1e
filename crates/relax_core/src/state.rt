// A state of shared heads, and single events on it.
ghost use Rattle.std.specs.Prelude.{◌≡◌, ◌<◌, length, IfOk};
ghost use Rattle.step_problem.specs.{Edges};
ghost use Rattle.cell_relax.specs.{AreNoLooser, IsRelaxedOn, AreWords, heads_on};
ghost use Rattle.relax_core.specs.Kept.{IsInRange, IsNamed, IsStart, Puts, Relaxes, Sees, Step, seen_by, with_head, IsKept};

use crate::events::Event;
use cell_relax::{head_on, relax_in, tighter_of};
use std::alloc::{AllocError, Global};
use std::marker::Model;
use step_problem::{Bound, Problem, Side};

/// The words, one bound for each cell, and for each actor the bounds that it has seen last.
#[derive(Drop)]
pub struct State {
    pub words: Vec<Bound>,
    pub seen: Vec<Vec<Bound>>,
}

impl Model for State {
    ghost use Rattle.std.specs.Prelude.{map};
    ghost use Rattle.relax_core.specs.Kept.{Core};

    ghost Value = { Core };

    ghost view = { λ s. record {
      words = s.words.items;
      seen = map (λ v. v.items) s.seen.items;
    } };
}

// Puts a head into one side of a cell's bound.
fn put_head(bounds: &mut Vec<Bound>, cell: usize, side: Side, head: i64)
    requires { cell < length bounds.old.items }
    ensures { bounds.new.items ≡ with_head side bounds.old.items cell head }
{
    match side {
        Side::Low => bounds[cell].low = head,
        Side::High => bounds[cell].high = head,
    }
}

impl State {
    /// The state with these words, which each actor has seen.
    pub fn start(alloc: Global, words: Vec<Bound>, actors: usize) -> Result<State, AllocError>
        ensures { IfOk result (λ s. IsStart words.items actors s) }
    {
        let mut seen = Vec::new(alloc);
        for _ in 0..actors {
            seen.push(Vec::from_slice(alloc, words.as_slice())?)?;
        }
        Ok(State { words, seen })
    }
}

impl State {
    // An actor sees the word of a cell on one side.
    fn see(&mut self, actor: usize, cell: usize, side: Side)
        requires actor { actor < length self.old.seen }
        requires cell { cell < length self.old.words }
        requires whole { cell < length (seen_by self.old actor) }
        ensures { Sees side self.old self.new actor cell }
    {
        let word = head_on(side, self.words[cell]);
        put_head(&mut self.seen[actor], cell, side, word);
    }

    // An actor puts a head into the word of a cell on one side, and has then seen it.
    fn put(&mut self, actor: usize, cell: usize, side: Side, head: i64)
        requires actor { actor < length self.old.seen }
        requires cell { cell < length self.old.words }
        requires whole { cell < length (seen_by self.old actor) }
        ensures { Puts side self.old self.new actor cell head }
    {
        put_head(&mut self.words, cell, side, head);
        put_head(&mut self.seen[actor], cell, side, head);
    }

    fn seen_of(&self, p: &Problem, actor: usize) -> &[Bound]
        requires in_range { IsInRange p.now self.now }
        requires actor { actor < length self.now.seen }
        ensures value { result.now ≡ seen_by self.now actor }
        ensures words { AreWords p.now result.now }
    {
        self.seen[actor].as_slice()
    }

    // The relaxed head of a cell on one side, from what an actor has seen.
    fn relaxed_head(&self, p: &Problem, actor: usize, cell: usize, side: Side) -> i64
        requires in_range { IsInRange p.now self.now }
        requires actor { actor < length self.now.seen }
        requires cell { cell < length p.now }
        ensures { IsRelaxedOn side p.now (heads_on side (seen_by self.now actor)) cell result }
    {
        relax_in(p, self.seen_of(p, actor), cell, side)
    }

    // An actor puts the tighter of a word and its relaxed head, and has then seen it.
    fn relax(&mut self, p: &Problem, actor: usize, cell: usize, side: Side)
        requires in_range { IsInRange p.now self.old }
        requires actor { actor < length self.old.seen }
        requires cell { cell < length p.now }
        ensures { Relaxes p.now side self.old self.new actor cell }
    {
        let word = head_on(side, self.words[cell]);
        let relaxed = self.relaxed_head(p, actor, cell, side);
        self.put(actor, cell, side, tighter_of(side, word, relaxed));
    }

    fn change(&mut self, p: &Problem, event: Event)
        requires in_range { IsInRange p.now self.old }
        requires named { IsNamed p.now self.old event }
        ensures { Step p.now event self.old self.new }
    {
        match event {
            Event::See { actor, cell, side } => self.see(actor as usize, cell as usize, side),
            Event::Raise { actor, cell } => self.relax(p, actor as usize, cell as usize, Side::Low),
            Event::Sink { actor, cell } => self.relax(p, actor as usize, cell as usize, Side::High),
            Event::Claim { .. } => {}
        }
    }
}

/// Performs one event, and takes no memory. The state must have one bound for each cell, in range, in its
/// words and in what each actor has seen; the event names an actor of the state and a cell of the problem.
#[tactic(auto, using(crate::proofs::Ranges::step_in_range, crate::proofs::Keeping::step_keeps, crate::proofs::Keeping::step_no_looser))]
pub fn apply(p: &Problem, state: &mut State, event: Event)
    requires in_range { IsInRange p.now state.old }
    requires named { IsNamed p.now state.old event }
    ensures step { Step p.now event state.old state.new }
    ensures in_range { IsInRange p.now state.new }
    ensures actors { length state.new.seen ≡ length state.old.seen }
    // This holds whatever the actor has seen, and for each barrier.
    ensures kept { (b : Edges) → IsKept p.now b state.old → IsKept p.now b state.new }
    ensures no_looser { AreNoLooser p.now state.old.words state.new.words }
{
    p.recall_conditions();
    state.change(p, event);
}
