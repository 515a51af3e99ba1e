// A list of optional items that contracts see as a list.
ghost use Rattle.std.specs.Prelude.{◌≡◌, ◌<◌, ◌++◌, ◌∷◌, [], List, Option, None, IfOk, length, replicate, slice_index_or, slice_set};
ghost use Rattle.model_types.specs.declared.limits.Limits.TheVariants.{Wide};
ghost use Rattle.model_types.specs.Limits.{most_entries};

use std::alloc::{AllocError, Global};
use std::marker::Model;

/// A list of optional items that contracts see as a list. The places before its first item take no memory, so a list
/// in which each is None takes none.
#[derive(Drop)]
pub struct Optional<T> {
    nones: u32,
    rest: Vec<Option<T>>,
}

impl<T> Model for Optional<T> {
    ghost Value = { List (Option T) };

    ghost view = { λ l. replicate l.nones None ++ l.rest.items };
}

fn all_items<T: Copy>(
    alloc: Global,
    nones: u32,
    rest: &[Option<T>],
) -> Result<Vec<Option<T>>, AllocError>
    ensures { IfOk result (λ v. v.items ≡ replicate nones None ++ rest.now) }
{
    let mut items = vec![in alloc; None; nones as usize]?;
    items.extend_from_slice(rest)?;
    Ok(items)
}

impl<T: Copy> Optional<T> {
    /// A list without items, of `count` places.
    pub fn none(alloc: Global, count: u32) -> Optional<T>
        ensures { result ≡ replicate count None }
    {
        Optional {
            nones: count,
            rest: Vec::new(alloc),
        }
    }

    /// Another list with the same items.
    pub fn again(&self, alloc: Global) -> Result<Optional<T>, AllocError>
        ensures { IfOk result (λ l. l ≡ self.now) }
    {
        let rest = Vec::from_slice(alloc, &self.rest)?;
        Ok(Optional {
            nones: self.nones,
            rest,
        })
    }

    /// The item at a place.
    pub fn at(&self, place: u32) -> Option<T>
        ensures { result ≡ slice_index_or self.now place None }
    {
        if place < self.nones {
            return None;
        }
        match self.rest.get((place - self.nones) as usize) {
            Some(item) => *item,
            None => None,
        }
    }

    /// Appends a place.
    pub fn push(&mut self, item: Option<T>) -> Result<(), AllocError>
        requires few { length self.old < most_entries Wide }
        ensures { IfOk result (λ _. self.new ≡ self.old ++ item ∷ []) }
    {
        if self.rest.is_empty() && item.is_none() {
            self.nones += 1;
            return Ok(());
        }
        self.rest.push(item)?;
        Ok(())
    }

    /// Replaces the item at a place.
    pub fn set(&mut self, alloc: Global, place: u32, item: Option<T>) -> Result<(), AllocError>
        requires place { place < length self.old }
        ensures { IfOk result (λ _. self.new ≡ slice_set self.old place item) }
    {
        if place >= self.nones {
            self.rest[(place - self.nones) as usize] = item;
            return Ok(());
        }
        let mut items = all_items(alloc, self.nones, &self.rest)?;
        items[place as usize] = item;
        self.nones = 0;
        self.rest = items;
        Ok(())
    }
}
