//! Lists of numbers that come and go, in room that is taken before.

ghost use Rattle.std.specs.Prelude.{◌≡◌, ◌≤◌, ◌<◌, ◌+◌, ℕ, List, [], ◌∷◌, ◌++◌, true, false, length, map, vec_len, vec_capacity, OnOk, OnErr};
ghost use Rattle.std.specs.List.{insert};
ghost use Rattle.std.specs.List.Sorted.{IsStrictlyIncreasing};
ghost use Rattle.residue_theory.specs.Sets.{has};
ghost use Rattle.limits.specs.Limits.{column_limit};
ghost use Rattle.linear_algebra.specs.Parts.{skip, unskip};
ghost use Rattle.smallvec.specs.SmallVec.{HasRoomFor};
ghost use Rattle.sparse_t.specs.Lists.{AreAllBelow};
ghost use Rattle.sparse_t.specs.Columns.{capacity_at, list_items_at, HasRoom, HasSameItems};
ghost use Rattle.sparse_t.specs.Shelves.{ShelfLists, AreWide, AreListsChanged, IsNumberPut, IsNumberTaken, shelf_list};
ghost use Rattle.sparse_t.specs.Shelves.{list_put, list_taken, numbers_raised, numbers_lowered, with_shelf_room};

use crate::lists::Numbers;
use crate::moves::{lower, raise};
use out_of_memory::NoMemory;
use std::alloc::AllocError;
use std::marker::Model;

/// Lists of numbers, with spare ones beside them: what comes takes a spare list, and what goes becomes one.
#[derive(Drop)]
pub struct Shelf {
    lists: Vec<Numbers>,
    spare: Vec<Numbers>,
    count: usize,
    width: usize,
}

impl Model for Shelf {
    ghost use Rattle.std.specs.Prelude.{map, vec_capacity};
    ghost use Rattle.sparse_t.specs.Shelves.{ShelfLists, IsShelf};

    ghost Value = { ShelfLists };

    ghost view = { λ s. record {
      lists = map (λ list. list.items) s.lists.items;
      count = s.count;
      width = s.width;
    } };

    ghost invariant = { λ s. IsShelf s.count s.width s.lists.items s.spare.items (vec_capacity s.lists)
        (vec_capacity s.spare) };
}

impl Shelf {
    /// These lists, with no room for more.
    pub fn of(lists: Vec<Numbers>) -> Shelf
        ensures { result ≡ record { lists = map (λ list. list.items) lists.items; count = 0; width = 0 } }
    {
        let spare = Vec::new(*lists.allocator());
        Shelf {
            lists,
            spare,
            count: 0,
            width: 0,
        }
    }

    /// How many lists there are.
    pub fn len(&self) -> usize
        ensures { result ≡ length self.now.lists }
    {
        self.lists.len()
    }

    /// List i.
    pub fn list(&self, i: usize) -> &[u32]
        requires { i < length self.now.lists }
        ensures { result.now ≡ shelf_list self.now i }
    {
        self.lists[i].as_slice()
    }

    /// Takes room for at least so many lists, and for so many numbers in each.
    pub fn room(&mut self, count: usize, width: usize) -> Result<(), NoMemory>
        ensures ok { OnOk result (self.new ≡ with_shelf_room self.old count width) }
        ensures err { OnErr result (self.new ≡ self.old) }
    {
        let count = count.max(self.count);
        let width = width.max(self.width);
        make_room(&mut self.lists, count, width)?;
        make_room(&mut self.spare, count, width)?;
        let missing = count.saturating_sub(self.lists.len() + self.spare.len());
        add_spare(&mut self.spare, missing, width)?;
        self.count = count;
        self.width = width;
        Ok(())
    }

    /// Puts a list in, so that it is list `at`. It takes no memory.
    pub fn put(&mut self, at: usize, items: &[u32])
        requires at { at ≤ length self.old.lists }
        requires room { length self.old.lists < self.old.count }
        requires width { length items.now ≤ self.old.width }
        ensures { self.new ≡ list_put self.old at items.now }
    {
        let list = refilled(self.spare.pop().unwrap(), items);
        insert_list(&mut self.lists, at, list);
    }

    /// Takes list `at` out.
    pub fn take(&mut self, at: usize)
        requires { at < length self.old.lists }
        ensures { self.new ≡ list_taken self.old at }
    {
        let list = self.lists.remove(at);
        keep(&mut self.spare, list);
    }

    /// Makes each number from `at` on greater by one.
    pub fn raise(&mut self, at: usize)
        requires small { (i : ℕ) → i < length self.old.lists → AreAllBelow column_limit (shelf_list self.old i) }
        ensures { self.new ≡ numbers_raised self.old at }
    {
        raise_lists(&mut self.lists, at);
    }

    /// Makes each number after `at` smaller by one.
    pub fn lower(&mut self, at: usize)
        ensures { self.new ≡ numbers_lowered self.old at }
    {
        lower_lists(&mut self.lists, at);
    }

    /// Puts a number in the lists of these columns, each at its place.
    pub fn enter(&mut self, columns: &[u32], number: u32)
        requires rising { IsStrictlyIncreasing columns.now }
        requires below { AreAllBelow (length self.old.lists) columns.now }
        requires lists { (j : ℕ) → j < length self.old.lists → IsStrictlyIncreasing (shelf_list self.old j) }
        requires missing { (j : ℕ) → j < length self.old.lists → has (shelf_list self.old j) number ≡ false }
        requires room { (j : ℕ) → j < length self.old.lists → length (shelf_list self.old j) < self.old.width }
        ensures changed { AreListsChanged (IsNumberPut number) self.old.lists self.new.lists columns.now }
        ensures count { self.new.count ≡ self.old.count }
        ensures width { self.new.width ≡ self.old.width }
    {
        enter_in(&mut self.lists, columns, number);
    }

    /// Takes a number out of the lists of these columns, which hold it.
    pub fn leave(&mut self, columns: &[u32], number: u32)
        requires rising { IsStrictlyIncreasing columns.now }
        requires below { AreAllBelow (length self.old.lists) columns.now }
        requires lists { (j : ℕ) → j < length self.old.lists → IsStrictlyIncreasing (shelf_list self.old j) }
        requires there { (j : ℕ) → has columns.now j ≡ true → has (shelf_list self.old j) number ≡ true }
        ensures changed { AreListsChanged (IsNumberTaken number) self.old.lists self.new.lists columns.now }
        ensures count { self.new.count ≡ self.old.count }
        ensures width { self.new.width ≡ self.old.width }
    {
        leave_in(&mut self.lists, columns, number);
    }
}

// Makes room for so many lists, and for so many numbers in each that is there.
fn make_room(lists: &mut Vec<Numbers>, count: usize, width: usize) -> Result<(), AllocError>
    ensures items { map (λ list. list.items) lists.new.items ≡ map (λ list. list.items) lists.old.items }
    ensures kept { (w : ℕ) → AreWide w lists.old.items → AreWide w lists.new.items }
    ensures capacity { vec_capacity lists.old ≤ vec_capacity lists.new }
    ensures room { OnOk result (count ≤ vec_capacity lists.new) }
    ensures wide { OnOk result (AreWide width lists.new.items) }
{
    lists.reserve(count.saturating_sub(lists.len()))?;
    widen(lists, width)
}

// Makes room for so many numbers in each list.
fn widen(lists: &mut [Numbers], width: usize) -> Result<(), AllocError>
    ensures same { HasSameItems lists.old lists.new }
    ensures kept { (w : ℕ) → AreWide w lists.old → AreWide w lists.new }
    ensures wide { OnOk result (AreWide width lists.new) }
{
    for list in lists.iter_mut() {
        list.reserve_exact(width.saturating_sub(list.len()))?;
    }
    Ok(())
}

// Adds so many empty lists with room for so many numbers.
fn add_spare(spare: &mut Vec<Numbers>, missing: usize, width: usize) -> Result<(), AllocError>
    ensures room { vec_capacity spare.old ≤ vec_capacity spare.new }
    ensures kept { (w : ℕ) → w ≤ width → AreWide w spare.old.items → AreWide w spare.new.items }
    ensures more { vec_len spare.old ≤ vec_len spare.new }
    ensures enough { OnOk result (vec_len spare.old + missing ≡ vec_len spare.new) }
{
    for _list in 0..missing {
        spare.push(Numbers::with_capacity(*spare.allocator(), width)?)?;
    }
    Ok(())
}

// A list with other numbers, which fit in it.
fn refilled(list: Numbers, items: &[u32]) -> Numbers
    requires fits { length items.now ≤ list.capacity }
    ensures items { result.items ≡ items.now }
    ensures capacity { list.capacity ≤ result.capacity }
{
    let mut list = list;
    list.clear();
    let _ = list.extend_from_slice(items);
    list
}

// Puts a list in its place among lists that have room for it.
fn insert_list(lists: &mut Vec<Numbers>, at: usize, list: Numbers)
    requires at { at ≤ vec_len lists.old }
    requires room { vec_len lists.old < vec_capacity lists.old }
    ensures items { lists.new.items ≡ insert lists.old.items at list }
    ensures room { vec_capacity lists.old ≤ vec_capacity lists.new }
{
    let _ = lists.insert(at, list);
}

// Keeps a list among the spare ones, if there is room.
fn keep(spare: &mut Vec<Numbers>, list: Numbers)
    ensures full { vec_capacity spare.old ≤ vec_len spare.old → spare.new.items ≡ spare.old.items }
    ensures kept { vec_len spare.old < vec_capacity spare.old → spare.new.items ≡ spare.old.items ++ list ∷ [] }
    ensures room { vec_capacity spare.old ≤ vec_capacity spare.new }
{
    if spare.len() < spare.capacity() {
        let _ = spare.push(list);
    }
}

fn raise_lists(lists: &mut [Numbers], at: usize)
    requires small { (i : ℕ) → i < length lists.old → AreAllBelow column_limit (list_items_at lists.old i) }
    ensures count { length lists.new ≡ length lists.old }
    ensures items { map (λ list. list.items) lists.new ≡ map (map (skip at)) (map (λ list. list.items) lists.old) }
    ensures capacities { (j : ℕ) → capacity_at lists.new j ≡ capacity_at lists.old j }
{
    for list in lists.iter_mut() {
        raise_list(list, at);
    }
}

fn lower_lists(lists: &mut [Numbers], at: usize)
    ensures count { length lists.new ≡ length lists.old }
    ensures items { map (λ list. list.items) lists.new ≡ map (map (unskip at)) (map (λ list. list.items) lists.old) }
    ensures capacities { (j : ℕ) → capacity_at lists.new j ≡ capacity_at lists.old j }
{
    for list in lists.iter_mut() {
        lower_list(list, at);
    }
}

fn raise_list(list: &mut Numbers, at: usize)
    requires small { AreAllBelow column_limit list.old.items }
    ensures items { list.new.items ≡ map (skip at) list.old.items }
    ensures capacity { list.new.capacity ≡ list.old.capacity }
{
    raise(list.as_mut_slice(), at);
}

fn lower_list(list: &mut Numbers, at: usize)
    ensures items { list.new.items ≡ map (unskip at) list.old.items }
    ensures capacity { list.new.capacity ≡ list.old.capacity }
{
    lower(list.as_mut_slice(), at);
}

// Puts a number that is not in a rising list in its place.
fn put_number(list: &mut Numbers, number: u32)
    requires rising { IsStrictlyIncreasing list.old.items }
    requires missing { has list.old.items number ≡ false }
    requires room { HasRoomFor list.old 1 }
    ensures put { IsNumberPut number list.old.items list.new.items }
    ensures capacity { list.new.capacity ≡ list.old.capacity }
{
    if let Err(place) = list.as_slice().binary_search(&number) {
        let _ = list.insert(place, number);
    }
}

// Takes a number out of a rising list that holds it.
fn take_number(list: &mut Numbers, number: u32)
    requires rising { IsStrictlyIncreasing list.old.items }
    requires there { has list.old.items number ≡ true }
    ensures taken { IsNumberTaken number list.old.items list.new.items }
    ensures capacity { list.new.capacity ≡ list.old.capacity }
{
    if let Ok(place) = list.as_slice().binary_search(&number) {
        list.remove(place);
    }
}

// Puts a number in the lists of these columns.
fn enter_in(lists: &mut [Numbers], columns: &[u32], number: u32)
    requires rising { IsStrictlyIncreasing columns.now }
    requires below { AreAllBelow (length lists.old) columns.now }
    requires lists { (j : ℕ) → j < length lists.old → IsStrictlyIncreasing (list_items_at lists.old j) }
    requires missing { (j : ℕ) → j < length lists.old → has (list_items_at lists.old j) number ≡ false }
    requires room { HasRoom lists.old columns.now (length columns.now) }
    ensures count { length lists.new ≡ length lists.old }
    ensures changed { AreListsChanged (IsNumberPut number) (map (λ list. list.items) lists.old)
        (map (λ list. list.items) lists.new) columns.now }
    ensures capacities { (j : ℕ) → capacity_at lists.new j ≡ capacity_at lists.old j }
{
    for column in columns {
        put_number(&mut lists[*column as usize], number);
    }
}

// Takes a number out of the lists of these columns, which hold it.
fn leave_in(lists: &mut [Numbers], columns: &[u32], number: u32)
    requires rising { IsStrictlyIncreasing columns.now }
    requires below { AreAllBelow (length lists.old) columns.now }
    requires lists { (j : ℕ) → j < length lists.old → IsStrictlyIncreasing (list_items_at lists.old j) }
    requires there { (j : ℕ) → has columns.now j ≡ true → has (list_items_at lists.old j) number ≡ true }
    ensures count { length lists.new ≡ length lists.old }
    ensures changed { AreListsChanged (IsNumberTaken number) (map (λ list. list.items) lists.old)
        (map (λ list. list.items) lists.new) columns.now }
    ensures capacities { (j : ℕ) → capacity_at lists.new j ≡ capacity_at lists.old j }
{
    for column in columns {
        take_number(&mut lists[*column as usize], number);
    }
}
