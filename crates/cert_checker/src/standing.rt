//! The part in which each number stands.

ghost use Rattle.std.specs.Prelude.{◌≡◌, ◌<◌, ◌≤◌, ◌↔◌, ℕ, ◌+◌, IfOk, IsTrue, MatchOption, length, slice_index_or};
ghost use Rattle.cert_text.specs.Ranges.{AreRising};
ghost use Rattle.cert_text.specs.Readings.{StandsOnce};
ghost use Rattle.cert_text.specs.declared.part.CcfPart.{CcfPart};
ghost use Rattle.cert_checker.specs.Standing.{IsUnplaced, IsPlacedList, AreSet, TellsPlaces, Not, part_list, list_in, lists_in, count_in};

use cert_text::{Ccf, CcfPart};
use out_of_memory::NoMemory;
use residue_field::Field;
use std::alloc::Global;

/// What stands in a part.
#[derive(Clone, Copy)]
pub enum Member {
    Column,
    QRow,
    TRow,
}

// The first tail, a block counted from 1, or the last tail.
fn part_at<F: Field>(form: &Ccf<F>, k: usize) -> &CcfPart
    requires { k < length form.now.blocks + 2 }
    ensures { (d : CcfPart) → result.now ≡ slice_index_or (part_list form.now) k d }
{
    let blocks = form.blocks().as_slice();
    if k == 0 {
        form.first()
    } else if k <= blocks.len() {
        &blocks[k - 1].part
    } else {
        form.last()
    }
}

// The numbers of one kind in a part.
fn list_of(part: &CcfPart, member: Member) -> &[usize]
    ensures { result.now ≡ list_in member part.now }
{
    match member {
        Member::Column => part.columns.as_slice(),
        Member::QRow => part.q_rows.as_slice(),
        Member::TRow => part.t_rows.as_slice(),
    }
}

// Writes the number of a part at the numbers of a list. False where one of them has a part already.
fn put(places: &mut [usize], list: &[usize], part: usize) -> bool
    requires { AreRising (length places.old) list.now }
    ensures answer { IsTrue result ↔ IsUnplaced places.old list.now }
    ensures placed { IsTrue result → IsPlacedList places.old list.now part places.new }
{
    for number in list {
        if places[*number] != 0 {
            return false;
        }
        places[*number] = part;
    }
    true
}

// Whether each number has a part.
fn are_set(places: &[usize]) -> bool
    ensures { IsTrue result ↔ AreSet places.now }
{
    for place in places {
        if *place == 0 {
            return false;
        }
    }
    true
}

/// The part in which each of these numbers stands, counted from 1: none where one stands in no part or in two.
pub fn places_of<F: Field>(
    alloc: Global,
    form: &Ccf<F>,
    member: Member,
    n: usize,
) -> Result<Option<Vec<usize>>, NoMemory>
    requires { n ≡ count_in member form.now.shape }
    ensures { IfOk result (λ found. MatchOption found (Not (StandsOnce n (lists_in member form.now)))
        (λ places. TellsPlaces n (lists_in member form.now) places.items)) }
{
    let mut places = vec![in alloc; 0; n]?;
    for k in 0..form.blocks().as_slice().len() + 2 {
        let list = list_of(part_at(form, k), member);
        if !put(&mut places, list, k + 1) {
            return Ok(None);
        }
    }
    if are_set(&places) {
        Ok(Some(places))
    } else {
        Ok(None)
    }
}
