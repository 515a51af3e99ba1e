// The places of a book. A place is empty or has an end.
ghost use Rattle.std.specs.Prelude.{◌≡◌, [], ◌∷◌, ◌++◌, length, OnOk};
ghost use Rattle.batch_book.specs.{IsGathered, IsMissing, first_of, those_there};

use std::alloc::AllocError;

// Moves an end to a place that is empty.
fn fill<E: Drop>(mine: &mut Option<E>, theirs: &mut Option<E>)
    ensures { mine.new ≡ first_of mine.old theirs.old }
{
    if mine.is_none() {
        *mine = theirs.take();
    }
}

/// Moves ends to those places that are empty.
pub(crate) fn fill_all<E: Drop>(mine: &mut [Option<E>], theirs: &mut [Option<E>])
    ensures { IsGathered mine.old theirs.old mine.new }
{
    let both = mine.len().min(theirs.len());
    for place in 0..both {
        fill(&mut mine[place], &mut theirs[place]);
    }
}

/// Pushes the end of a place, if it has one. The error is out of memory.
pub(crate) fn push_end<E: Drop>(ends: &mut Vec<E>, place: Option<E>) -> Result<(), AllocError>
    ensures { OnOk result (ends.new.items ≡ ends.old.items ++ those_there (place ∷ [])) }
{
    if let Some(end) = place {
        ends.push(end)?;
    }
    Ok(())
}

/// The first place that is empty.
pub(crate) fn first_empty<E>(places: &[Option<E>]) -> Option<usize>
    ensures { IsMissing places.now (length places.now) result }
{
    for place in 0..places.len() {
        if places[place].is_none() {
            return Some(place);
        }
    }
    None
}
