// Parts of lists. Each call is total.

/// A range of places of a list.
#[derive(Clone, Copy)]
pub struct Span {
    pub first: usize,
    pub end: usize,
}

impl Span {
    pub fn new(first: usize, end: usize) -> Span {
        Span { first, end }
    }

    pub fn len(&self) -> usize {
        self.end.saturating_sub(self.first)
    }

    /// This part of a list; an empty one where it is not within.
    pub fn of<'a, T>(&self, xs: &'a [T]) -> &'a [T] {
        xs.get(self.first..self.end).unwrap_or(&[])
    }

    /// The same, to write.
    pub fn of_mut<'a, T>(&self, xs: &'a mut [T]) -> &'a mut [T] {
        xs.get_mut(self.first..self.end).unwrap_or(&mut [])
    }
}

/// Adds to the number at an index, unless that is past the end.
pub fn add(xs: &mut [u64], index: usize, by: u64) {
    if let Some(x) = xs.get_mut(index) {
        *x = x.saturating_add(by);
    }
}
