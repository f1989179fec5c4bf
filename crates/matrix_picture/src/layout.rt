//! The order in which a picture shows the columns and rows of a form, and where its parts stand.

ghost use Rattle.std.specs.Prelude.{◌≡◌, ◌++◌, IfOk, OnOk, map};
ghost use Rattle.cert_text.specs.Contents.{Contents};
ghost use Rattle.matrix_picture.specs.Orders.{Order, nothing_placed, order_of, with_blocks, with_lines, with_part};

use cert_text::{Ccf, CcfBlock, CcfPart};
use out_of_memory::NoMemory;
use residue_field::Field;
use std::alloc::Global;
use std::marker::Model;

/// A row of a form, counted from 0.
#[derive(Clone, Copy, Debug, PartialEq, Eq)]
pub enum Row {
    /// A row of P: constants.
    Constants(usize),
    /// A row of T: symbols.
    Symbols(usize),
}

/// Where a part stands: its first column and row among those of the picture, and the first ones behind it.
#[derive(Clone, Copy, Debug, PartialEq, Eq)]
pub struct Frame {
    pub left: usize,
    pub top: usize,
    pub right: usize,
    pub bottom: usize,
}

/// The columns of a form from the left, its rows from the top, and the frame of each part: the first tail, the blocks,
/// the last tail. (Murota, chapter 4.)
#[derive(Drop)]
pub struct Layout {
    columns: Vec<usize>,
    rows: Vec<Row>,
    frames: Vec<Frame>,
}

impl Model for Layout {
    ghost use Rattle.matrix_picture.specs.Orders.{Order};

    ghost Value = { Order };

    ghost view = { λ l. record {
      columns = l.columns.items;
      rows = l.rows.items;
      frames = l.frames.items;
    } };
}

impl Layout {
    /// The layout of a form: the columns and rows of its parts, part by part; in a part the rows of constants stand above
    /// those of symbols.
    pub fn of<F: Field>(alloc: Global, ccf: &Ccf<F>) -> Result<Layout, NoMemory>
        ensures { IfOk result (λ layout. layout ≡ order_of ccf.now) }
    {
        let mut layout = Layout {
            columns: Vec::new(alloc),
            rows: Vec::new(alloc),
            frames: Vec::new(alloc),
        };
        layout.push_part(ccf.first())?;
        layout.push_blocks(ccf.blocks().as_slice())?;
        layout.push_part(ccf.last())?;
        Ok(layout)
    }

    /// The columns from the left, as the form counts them.
    pub fn columns(&self) -> &[usize]
        ensures { result.now ≡ self.now.columns }
    {
        &self.columns
    }

    /// The rows from the top.
    pub fn rows(&self) -> &[Row]
        ensures { result.now ≡ self.now.rows }
    {
        &self.rows
    }

    /// The frames of the parts.
    pub fn frames(&self) -> &[Frame]
        ensures { result.now ≡ self.now.frames }
    {
        &self.frames
    }

    // Puts blocks right of and below what is there.
    fn push_blocks(&mut self, blocks: &[CcfBlock]) -> Result<(), NoMemory>
        ensures { OnOk result (self.new ≡ with_blocks self.old blocks.now) }
    {
        for block in blocks {
            self.push_part(&block.part)?;
        }
        Ok(())
    }

    // Puts a part right of and below what is there.
    fn push_part(&mut self, part: &CcfPart) -> Result<(), NoMemory>
        ensures { OnOk result (self.new ≡ with_part self.old part.now) }
    {
        let left = self.columns.len();
        let top = self.rows.len();
        self.push_lines(part)?;
        self.frames.push(Frame {
            left,
            top,
            right: self.columns.len(),
            bottom: self.rows.len(),
        })?;
        Ok(())
    }

    // Puts the columns and rows of a part.
    fn push_lines(&mut self, part: &CcfPart) -> Result<(), NoMemory>
        ensures { OnOk result (self.new ≡ with_lines self.old part.now) }
    {
        self.columns.extend_from_slice(part.columns.as_slice())?;
        push_constants(&mut self.rows, part.q_rows.as_slice())?;
        push_symbols(&mut self.rows, part.t_rows.as_slice())?;
        Ok(())
    }
}

// Puts rows of P last.
fn push_constants(rows: &mut Vec<Row>, list: &[usize]) -> Result<(), NoMemory>
    ensures { OnOk result (rows.new.items ≡ rows.old.items ++ map Row.Constants list.now) }
{
    for row in list {
        rows.push(Row::Constants(*row))?;
    }
    Ok(())
}

// Puts rows of T last.
fn push_symbols(rows: &mut Vec<Row>, list: &[usize]) -> Result<(), NoMemory>
    ensures { OnOk result (rows.new.items ≡ rows.old.items ++ map Row.Symbols list.now) }
{
    for row in list {
        rows.push(Row::Symbols(*row))?;
    }
    Ok(())
}
