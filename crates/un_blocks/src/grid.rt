//! Tables with a row for each group and a column for each key.

use std::alloc::{AllocError, Global};

/// A table of so many columns, row after row. A place outside answers one item and ignores a change.
#[derive(Drop)]
pub struct Grid<T> {
    columns: u32,
    items: Vec<T>,
    outside: T,
}

impl<T: Copy> Grid<T> {
    /// A table with the same item everywhere.
    pub fn filled(alloc: Global, rows: u32, columns: u32, item: T) -> Result<Grid<T>, AllocError> {
        let mut items = Vec::new(alloc);
        items.resize(rows.saturating_mul(columns) as usize, item)?;
        Ok(Grid {
            columns,
            items,
            outside: item,
        })
    }

    fn place(&self, row: u32, column: u32) -> usize {
        if column < self.columns {
            row.saturating_mul(self.columns).saturating_add(column) as usize
        } else {
            usize::MAX
        }
    }

    /// The item at a row and a column.
    pub fn at(&self, row: u32, column: u32) -> T {
        match self.items.get(self.place(row, column)) {
            Some(item) => *item,
            None => self.outside,
        }
    }

    /// Another item at a row and a column.
    pub fn put(&mut self, row: u32, column: u32, item: T) {
        let place = self.place(row, column);
        if let Some(old) = self.items.get_mut(place) {
            *old = item;
        }
    }

    /// The items of a row.
    pub fn row(&self, row: u32) -> &[T] {
        let start = row.saturating_mul(self.columns) as usize;
        let end = start.saturating_add(self.columns as usize);
        self.items.get(start..end).unwrap_or(&[])
    }

    /// Makes the table that of another's items, which has as many rows and columns.
    pub fn copy_from(&mut self, other: &Grid<T>) -> Result<(), AllocError> {
        self.items.clear();
        self.items.extend_from_slice(other.items.as_slice())
    }
}
