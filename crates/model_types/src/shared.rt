// A list that several stress periods have.
ghost use Rattle.std.specs.Prelude.{◌≡◌, List, [], None, Some, IfOk};
ghost use Rattle.std.specs.Arc.{arc_value};

use std::alloc::{AllocError, Global};
use std::marker::Model;
use std::sync::Arc;

/// A list of a stress period, which later periods may share. It is in memory once, however many periods
/// reuse it, and threads may share it. An empty list needs no memory.
#[derive(Drop)]
pub struct Shared<T> {
    items: Option<Arc<Vec<T>>>,
}

impl<T> Model for Shared<T> {
    ghost Value = { List T };

    ghost view = { λ l. elim l.items as (λ o. List T) [ None ↦ [] | Some a ↦ (arc_value a).items ] };
}

impl<T: Drop> Shared<T> {
    /// A list without items.
    pub fn empty() -> Shared<T>
        ensures { result ≡ [] }
    {
        Shared { items: None }
    }

    pub fn new(alloc: Global, items: Vec<T>) -> Result<Shared<T>, AllocError>
        ensures { IfOk result (λ l. l ≡ items.items) }
    {
        let items = Arc::new(alloc, items)?;
        Ok(Shared { items: Some(items) })
    }

    /// Another handle to the same list, without a copy of it.
    pub fn again(&self) -> Result<Shared<T>, AllocError>
        ensures { IfOk result (λ l. l ≡ self.now) }
    {
        match &self.items {
            None => Ok(Shared { items: None }),
            Some(items) => {
                let items = Arc::try_clone(items)?;
                Ok(Shared { items: Some(items) })
            }
        }
    }

    pub fn as_slice(&self) -> &[T]
        ensures { result.now ≡ self.now }
    {
        match &self.items {
            None => &[],
            Some(items) => items.as_slice(),
        }
    }
}
