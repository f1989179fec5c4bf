//! Marks of what stands in lists.

ghost use Rattle.std.specs.Prelude.{◌≡◌, ◌<◌, ◌≤◌, ℕ, IfOk, length, map};
ghost use Rattle.std.specs.List.{All};
ghost use Rattle.part_arcs.specs.Marking.{AreMarked, AreOthers, IsMarked, columns_of, first_numbers};

use cert_text::Items;
use out_of_memory::NoMemory;
use std::alloc::Global;

/// Marks the first number of each item.
pub fn mark_keys<T>(marks: &mut [bool], items: &[(usize, T)])
    requires { All (λ item. item.0 < length marks.old) items.now }
    ensures { IsMarked (first_numbers items.now) (length items.now) marks.old marks.new }
{
    for item in items {
        marks[item.0] = true;
    }
}

/// Marks the column of each item.
pub fn mark_columns(marks: &mut [bool], pairs: &[(usize, usize)])
    requires { All (λ pair. pair.1 < length marks.old) pairs.now }
    ensures { IsMarked (columns_of pairs.now) (length pairs.now) marks.old marks.new }
{
    for pair in pairs {
        marks[pair.1] = true;
    }
}

/// Marks each number of a list.
pub fn mark_numbers(marks: &mut [bool], list: &[usize])
    requires { All (λ number. number < length marks.old) list.now }
    ensures { IsMarked list.now (length list.now) marks.old marks.new }
{
    for number in list {
        marks[*number] = true;
    }
}

/// Marks what stands in the rows of entries that are not taken.
pub fn mark_entries<T: Drop>(marks: &mut [bool], taken: &[bool], rows: &[Items<(usize, T)>])
    requires taken { length taken.now ≡ length rows.now }
    requires rows { All (All (λ item. item.0 < length marks.old)) rows.now }
    ensures { AreMarked taken.now (map first_numbers rows.now) (length rows.now) marks.old marks.new }
{
    for i in 0..rows.len() {
        if !taken[i] {
            mark_keys(marks, rows[i].as_slice());
        }
    }
}

/// Marks what stands in the rows of symbols that are not taken.
pub fn mark_symbols(marks: &mut [bool], taken: &[bool], rows: &[Items<usize>])
    requires taken { length taken.now ≡ length rows.now }
    requires rows { All (All (λ number. number < length marks.old)) rows.now }
    ensures { AreMarked taken.now rows.now (length rows.now) marks.old marks.new }
{
    for i in 0..rows.len() {
        if !taken[i] {
            mark_numbers(marks, rows[i].as_slice());
        }
    }
}

/// Marks of what is not marked.
pub fn others(alloc: Global, marks: &[bool]) -> Result<Vec<bool>, NoMemory>
    ensures { IfOk result (λ now. AreOthers marks.now (length marks.now) now.items) }
{
    let mut now = Vec::with_capacity(alloc, marks.len())?;
    for mark in marks {
        now.push(!*mark)?;
    }
    Ok(now)
}
