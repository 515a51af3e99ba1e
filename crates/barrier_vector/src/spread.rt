// One step of a search: marks go from the cells of a frontier over their links to the cells that have none.
ghost use Rattle.std.specs.Prelude.{◌≡◌, ◌<◌, length, [], All, OnOk, IfOk, ◌+◌, None};
ghost use Rattle.barrier_vector.specs.{Spreads, LinkLeads, FrontLeads, mark_at, AreLabels, Fills};

use std::alloc::{AllocError, Global};
use step_problem::{Link, Problem};

// Marks a cell and adds it to the list, if it has no mark.
pub(crate) fn mark_cell(
    marks: &mut [Option<u32>],
    next: &mut Vec<u32>,
    cell: u32,
    mark: u32,
) -> Result<(), AllocError>
    requires { cell < length marks.old }
    ensures { OnOk result (Spreads (λ k. k ≡ cell) mark marks.old marks.new next.old.items next.new.items) }
{
    if marks[cell as usize].is_none() {
        marks[cell as usize] = Some(mark);
        next.push(cell)?;
    }
    Ok(())
}

fn spread_from(
    marks: &mut [Option<u32>],
    next: &mut Vec<u32>,
    links: &[Link],
    mark: u32,
) -> Result<(), AllocError>
    requires { All (λ x. x.cell < length marks.old) links.now }
    ensures { OnOk result (Spreads (LinkLeads links.now (length links.now)) mark marks.old marks.new next.old.items next.new.items) }
{
    for x in links {
        mark_cell(marks, next, x.cell, mark)?;
    }
    Ok(())
}

// Marks the cells to which links lead from the frontier, and returns those that had no mark.
pub(crate) fn spread(
    alloc: Global,
    p: &Problem,
    marks: &mut [Option<u32>],
    frontier: &[u32],
    mark: u32,
) -> Result<Vec<u32>, AllocError>
    requires whole { length marks.old ≡ length p.now }
    requires frontier { All (λ c. c < length p.now) frontier.now }
    ensures { IfOk result (λ next. Spreads (FrontLeads p.now frontier.now (length frontier.now)) mark marks.old marks.new [] next.items) }
{
    p.recall_conditions();
    let mut next = Vec::new(alloc);
    for c in frontier {
        spread_from(marks, &mut next, &p.cell(*c as usize).links, mark)?;
    }
    Ok(next)
}

// The components of a problem.

// Labels the component of a cell that has no label.
fn fill(alloc: Global, p: &Problem, labels: &mut [Option<u32>], cell: u32) -> Result<(), AllocError>
    requires whole { length labels.old ≡ length p.now }
    requires cell { cell < length p.now }
    requires none { mark_at labels.old cell ≡ None }
    ensures { OnOk result (Fills p.now cell labels.old labels.new) }
{
    p.recall_conditions();
    labels[cell as usize] = Some(cell);
    let mut frontier = vec![in alloc; cell]?;
    while !frontier.is_empty() {
        frontier = spread(alloc, p, labels, &frontier, cell)?;
    }
    Ok(())
}

// Labels the component of cell c, where the cells below it have labels.
fn label_from(
    alloc: Global,
    p: &Problem,
    labels: &mut [Option<u32>],
    c: usize,
) -> Result<(), AllocError>
    requires cell { c < length p.now }
    requires labels { AreLabels p.now labels.old c }
    ensures { OnOk result (AreLabels p.now labels.new (c + 1)) }
{
    p.recall_conditions();
    if labels[c].is_none() {
        fill(alloc, p, labels, c as u32)?;
        return Ok(());
    }
    Ok(())
}

/// Labels each cell with the least cell of its component.
pub(crate) fn label_components(alloc: Global, p: &Problem) -> Result<Vec<Option<u32>>, AllocError>
    ensures { IfOk result (λ labels. AreLabels p.now labels.items (length p.now)) }
{
    let count = p.len();
    let mut labels = vec![in alloc; None; count]?;
    for c in 0..count {
        label_from(alloc, p, &mut labels, c)?;
    }
    Ok(labels)
}
