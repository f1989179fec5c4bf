//! Marks of what stands in lists, and the list of what is marked.

ghost use Rattle.std.specs.Prelude.{◌≡◌, ◌<◌, ◌≤◌, ◌↔◌, ℕ, IfOk, OnOk, false, length, map, slice_index, true};
ghost use Rattle.std.specs.List.{All};
ghost use Rattle.part_arcs.specs.Marking.{first_numbers, row_of_lists};
ghost use Rattle.part_rules.specs.Listed.{marked};
ghost use Rattle.solve_plan.specs.Marks.{AreMembersOf, IsItem, Marks, OfSome, Unmarks};

use cert_text::Items;
use out_of_memory::NoMemory;
use std::alloc::Global;

/// Marks each number of a list.
pub fn mark_numbers(marks: &mut [bool], list: &[usize])
    requires { All (λ number. number < length marks.old) list.now }
    ensures { Marks (IsItem list.now) marks.old marks.new }
{
    for number in list {
        marks[*number] = true;
    }
}

/// Unmarks each number of a list.
pub fn unmark_numbers(marks: &mut [bool], list: &[usize])
    requires { All (λ number. number < length marks.old) list.now }
    ensures { Unmarks (IsItem list.now) marks.old marks.new }
{
    for number in list {
        marks[*number] = false;
    }
}

// Marks the columns of the entries of a row.
fn mark_row<T: Drop>(marks: &mut [bool], rows: &[Items<(usize, T)>], row: usize)
    requires row { row < length rows.now }
    requires rows { All (All (λ item. item.0 < length marks.old)) rows.now }
    ensures { Marks (IsItem (row_of_lists (map first_numbers rows.now) row)) marks.old marks.new }
{
    let items = rows[row].as_slice();
    for item in items {
        marks[item.0] = true;
    }
}

/// Marks the columns of the entries of these rows.
pub fn mark_rows<T: Drop>(marks: &mut [bool], rows: &[Items<(usize, T)>], list: &[usize])
    requires list { All (λ i. i < length rows.now) list.now }
    requires rows { All (All (λ item. item.0 < length marks.old)) rows.now }
    ensures { Marks (OfSome (length list.now) (λ k. IsItem (row_of_lists (map first_numbers rows.now)
        (slice_index list.now k))))
        marks.old marks.new }
{
    for row in list {
        mark_row(marks, rows, *row);
    }
}

/// Marks what stands in these of the lists.
pub fn mark_lists(marks: &mut [bool], lists: &[Items<usize>], which: &[usize])
    requires which { All (λ i. i < length lists.now) which.now }
    requires lists { All (All (λ number. number < length marks.old)) lists.now }
    ensures { Marks (OfSome (length which.now) (λ k. IsItem (row_of_lists lists.now (slice_index which.now k))))
        marks.old marks.new }
{
    for i in which {
        mark_numbers(marks, lists[*i].as_slice());
    }
}

// So many marks are looked at together.
const RUN: usize = 64;

/// The numbers below n that are marked, rising.
pub fn listed(alloc: Global, marks: &[bool], n: usize) -> Result<Vec<usize>, NoMemory>
    requires { n ≤ length marks.now }
    ensures { IfOk result (λ list. AreMembersOf n (λ i. marked marks.now i ≡ true) list.items) }
{
    let mut list = Vec::new(alloc);
    let mut from = 0;
    while from < n {
        let end = from + RUN.min(n - from);
        put_run(&mut list, marks, from, end)?;
        from = end;
    }
    Ok(list)
}

// Puts the numbers of a run that are marked last.
fn put_run(list: &mut Vec<usize>, marks: &[bool], from: usize, end: usize) -> Result<(), NoMemory>
    requires run { from ≤ end }
    requires end { end ≤ length marks.now }
    requires before { AreMembersOf from (λ i. marked marks.now i ≡ true) list.old.items }
    ensures { OnOk result (AreMembersOf end (λ i. marked marks.now i ≡ true) list.new.items) }
{
    if !has_mark(&marks[from..end]) {
        return Ok(());
    }
    for i in from..end {
        if marks[i] {
            list.push(i)?;
        }
    }
    Ok(())
}

// Whether some of the marks is set.
fn has_mark(marks: &[bool]) -> bool
    ensures { (result ≡ false) ↔ ((i : ℕ) → marked marks.now i ≡ false) }
{
    // all are looked at, since a loop that does not end early looks at many at once
    let mut any = false;
    for mark in marks {
        any |= *mark;
    }
    any
}
