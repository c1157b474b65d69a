//! Places in lists, and reading and writing at places that needn't be there: what is missing costs a proposal, nothing else.

/// The places of a list from one on and before another.
#[derive(Clone, Copy)]
pub struct Places {
    pub from: usize,
    pub to: usize,
}

/// No places.
pub const NO_PLACES: Places = Places { from: 0, to: 0 };

impl Places {
    /// How many places there are.
    pub fn count(&self) -> usize {
        self.to.saturating_sub(self.from)
    }

    /// What stands at the places, as far as the list goes.
    pub fn of<'a, T>(&self, list: &'a [T]) -> &'a [T] {
        let to = self.to.min(list.len());
        &list[self.from.min(to)..to]
    }

    /// The same, to be written.
    pub fn of_mut<'a, T>(&self, list: &'a mut [T]) -> &'a mut [T] {
        let to = self.to.min(list.len());
        &mut list[self.from.min(to)..to]
    }
}

/// What stands at a place, or another value where there is no such place.
pub fn at<T: Copy>(list: &[T], place: usize, other: T) -> T {
    if place < list.len() {
        list[place]
    } else {
        other
    }
}

/// Puts a value at a place, where there is one.
pub fn put<T: Copy>(list: &mut [T], place: usize, value: T) {
    if place < list.len() {
        list[place] = value;
    }
}

/// Appends a value where there is room.
pub fn append<T: Copy>(list: &mut Vec<T>, value: T) {
    match list.push(value) {
        Ok(()) => {}
        Err(_) => {}
    }
}

/// Makes a list so many times a value, where there is room.
pub(crate) fn refill<T: Copy>(list: &mut Vec<T>, count: usize, value: T) {
    list.clear();
    for _place in 0..count {
        append(list, value);
    }
}

/// Adds to a number at a place, where there is one.
pub(crate) fn add(list: &mut [f64], place: usize, value: f64) {
    if place < list.len() {
        list[place] += value;
    }
}
