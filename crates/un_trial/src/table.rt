//! Total tables: a place outside answers a default and ignores a change.

use std::alloc::AllocError;
use std::mem;

/// No register, slot, operation, temporary, key or variable.
pub const NONE: u32 = u32::MAX;

/// A table whose places outside answer one item.
#[derive(Drop)]
pub struct Table<T> {
    items: Vec<T>,
    outside: T,
}

impl<T> Table<T> {
    /// The items as a table. It takes no memory.
    pub fn of(items: Vec<T>, outside: T) -> Table<T> {
        Table { items, outside }
    }

    /// How many places there are.
    pub fn len(&self) -> u32 {
        u32::try_from(self.items.len()).unwrap_or(u32::MAX)
    }

    /// The items.
    pub fn as_slice(&self) -> &[T] {
        self.items.as_slice()
    }

    /// The item at a place, lent.
    #[inline(always)]
    pub fn row(&self, i: u32) -> &T {
        match self.items.get(i as usize) {
            Some(item) => item,
            None => &self.outside,
        }
    }

    /// The item at a place, lent to be changed; None outside.
    #[inline(always)]
    pub(crate) fn row_mut(&mut self, i: u32) -> Option<&mut T> {
        self.items.get_mut(i as usize)
    }
}

/// Makes a list one of these items: where there are as many before, by one copy of them all.
pub(crate) fn overwrite<T: Copy>(list: &mut Vec<T>, items: &[T]) -> Result<(), AllocError> {
    if list.len() == items.len() {
        list.copy_from_slice(items);
        return Ok(());
    }
    list.clear();
    list.extend_from_slice(items)
}

impl<T: Copy> Table<T> {
    /// Makes the table one of so many places, all with this item.
    pub fn refill(&mut self, length: u32, item: T) -> Result<(), AllocError> {
        self.items.clear();
        self.items.resize(length as usize, item)
    }

    /// Makes the table one of these items.
    pub fn copy_from(&mut self, items: &[T]) -> Result<(), AllocError> {
        overwrite(&mut self.items, items)
    }

    /// Makes the table one of so many places, all as places outside, by a copy of blank ones: a list that grows as it is asked for more.
    pub(crate) fn wipe(&mut self, length: u32, blank: &mut Vec<T>) -> Result<(), AllocError> {
        let count = length as usize;
        if blank.len() < count {
            blank.resize(count, self.outside)?;
        }
        match blank.get(..count) {
            Some(items) => overwrite(&mut self.items, items),
            None => Ok(()),
        }
    }

    /// Exchanges the items with a list.
    pub fn exchange(&mut self, items: &mut Vec<T>) {
        mem::swap(&mut self.items, items);
    }

    /// The item at a place.
    #[inline(always)]
    pub fn at(&self, i: u32) -> T {
        *self.row(i)
    }

    /// Another item at a place.
    #[inline(always)]
    pub fn put(&mut self, i: u32, item: T) {
        if let Some(place) = self.items.get_mut(i as usize) {
            *place = item;
        }
    }
}

impl Table<u32> {
    /// At least this number at a place.
    #[inline(always)]
    pub fn raise(&mut self, i: u32, item: u32) {
        self.put(i, self.at(i).max(item));
    }
}
