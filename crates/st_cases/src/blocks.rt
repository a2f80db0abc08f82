//! Blocks of a file: what stands from a line of `==` to the next.
//!
//! Where a line `-- each` names words, each line behind it is a row with a value for each of them, and stands for a case: the
//! block's, with the values in the place of the words in braces.
use crate::braces::Values;
use std::alloc::{AllocError, Global};

/// What stands from one line of `==` to the next.
#[derive(Drop)]
pub struct Block<'a> {
    /// What stands behind the `==`.
    pub name: &'a str,
    /// The lines behind it, each with its line feed.
    lines: String,
    /// The words that have values, where there are any.
    words: Option<&'a str>,
    /// The cases. A block without such words is one, in its first line.
    pub rows: Vec<Row<'a>>,
}

/// A line of the file, by its number from 1, with a value for each word.
#[derive(Clone, Copy, Drop)]
pub struct Row<'a> {
    pub line: usize,
    values: &'a str,
}

impl<'a> Block<'a> {
    fn new(alloc: Global, line: usize, name: &'a str) -> Result<Self, AllocError> {
        let mut rows = Vec::new(alloc);
        rows.push(Row { line, values: "" })?;
        Ok(Block {
            name,
            lines: String::new(alloc),
            words: None,
            rows,
        })
    }

    /// Takes a line more, the one of this number.
    fn add(&mut self, line: usize, text: &'a str) -> Result<(), AllocError> {
        if let Some(words) = text.strip_prefix("-- each ") {
            self.words = Some(words);
            self.rows.clear();
        } else if self.words.is_none() {
            writeln!(self.lines, "{text}")?;
        } else if !text.is_empty() {
            self.rows.push(Row { line, values: text })?;
        }
        Ok(())
    }

    /// The lines of the case that is in this row.
    pub fn case(&self, alloc: Global, row: Row<'_>) -> Result<String, AllocError> {
        let words = self.words.unwrap_or("");
        let values = row.values;
        Values { words, values }.written_out(alloc, &self.lines)
    }
}

/// The blocks of a file.
pub fn blocks_of(alloc: Global, file: &str) -> Result<Vec<Block<'_>>, AllocError> {
    let mut blocks: Vec<Block<'_>> = Vec::new(alloc);
    let mut number: usize = 0;
    for line in file.split('\n') {
        number = number.saturating_add(1);
        if let Some(name) = line.strip_prefix("== ") {
            blocks.push(Block::new(alloc, number, name)?)?;
        } else if let Some(block) = blocks.last_mut() {
            block.add(number, line)?;
        }
    }
    Ok(blocks)
}
