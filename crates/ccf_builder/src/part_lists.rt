//! The numbers of each part, in a list for each.

ghost use Rattle.std.specs.Prelude.{◌≡◌, ◌≢◌, ◌<◌, ℕ, IfOk, OnOk, length, slice_index_or};
ghost use Rattle.std.specs.Global.{Vec};
ghost use Rattle.ccf_builder.specs.Placings.{AreEmpty, IsListedAtPart, IsPushed, ListsParts};

use cert_text::Items;
use minimiser_lattice::Part;
use out_of_memory::NoMemory;
use std::alloc::Global;
use std::mem;

/// A list of numbers for each part.
#[derive(Drop)]
pub struct PartLists {
    pub first: Vec<usize>,
    pub blocks: Vec<Vec<usize>>,
    pub last: Vec<usize>,
}

impl PartLists {
    /// The numbers that stand in each part, rising, where there are so many blocks. A number of any other block
    /// stands in no list.
    pub fn of(alloc: Global, parts: &[Part], blocks: usize) -> Result<Self, NoMemory>
        ensures { IfOk result (ListsParts parts.now (length parts.now) blocks) }
    {
        let mut lists = PartLists::open(alloc, blocks)?;
        for (number, part) in parts.iter().enumerate() {
            lists.enter(*part, number)?;
        }
        Ok(lists)
    }

    // Empty lists, of so many blocks.
    fn open(alloc: Global, blocks: usize) -> Result<Self, NoMemory>
        ensures { IfOk result (AreEmpty blocks) }
    {
        let mut lists = Vec::new(alloc);
        for _block in 0..blocks {
            lists.push(Vec::new(alloc))?;
        }
        Ok(PartLists {
            first: Vec::new(alloc),
            blocks: lists,
            last: Vec::new(alloc),
        })
    }

    // Puts a number at the end of the list of its part.
    fn enter(&mut self, part: Part, number: usize) -> Result<(), NoMemory>
        ensures { OnOk result (IsListedAtPart self.old self.new part number) }
    {
        match part {
            Part::First => self.first.push(number)?,
            Part::Block(k) => push_at(&mut self.blocks, k, number)?,
            Part::Last => self.last.push(number)?,
        }
        Ok(())
    }
}

// Puts a number at the end of list k, where there is one.
fn push_at(lists: &mut [Vec<usize>], k: usize, number: usize) -> Result<(), NoMemory>
    ensures { OnOk result (IsPushed lists.old lists.new k number) }
{
    if k < lists.len() {
        lists[k].push(number)?;
    }
    Ok(())
}

/// Takes list k out, and leaves an empty one.
pub fn take_at(alloc: Global, lists: &mut [Vec<usize>], k: usize) -> Items<usize>
    requires { k < length lists.old }
    ensures list { (d : Vec ℕ) → result ≡ (slice_index_or lists.old k d).items }
    ensures count { length lists.new ≡ length lists.old }
    ensures others { (j : ℕ) (d : Vec ℕ) → j ≢ k → slice_index_or lists.new j d ≡ slice_index_or lists.old j d }
{
    Items::from_vec(mem::replace(&mut lists[k], Vec::new(alloc)))
}
