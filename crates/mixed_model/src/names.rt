//! Lists of names.

ghost use Rattle.std.specs.Prelude.{◌≡◌, ◌∷◌, ◌++◌, [], ◌<◌, ◌≤◌, IsTrue, false, not, ◌||◌, nat_eq, nat_le, length, map};
ghost use Rattle.std.specs.Prelude.{position, remove, slice_get, Some, Err, IfOk, OnOk, OnErr};
ghost use Rattle.std.specs.List.{list_all};
ghost use Rattle.std.specs.Str.{bytes_eq};
ghost use Rattle.std.specs.String.{string_bytes};
ghost use Rattle.limits.specs.Limits.{equation_limit};
ghost use Rattle.mixed_model.specs.Names.{is_label, IsNameList, has_name, see, appending, adding, seeing, AnswersAdd};

use crate::errors::AddError;
use indexmap::IndexSet;
use limits::EQUATION_LIMIT;
use out_of_memory::NoMemory;
use std::alloc::{AllocError, Global};
use std::marker::Model;

// The greatest number of bytes of a name.
const LONGEST: usize = 96;

/// Whether a text may be a name in a model: 1 to 96 bytes, none of them a space or a tab.
pub fn is_label(text: &str) -> bool
    ensures { result ≡ is_label text.now }
{
    !text.is_empty() && text.len() <= LONGEST && are_solid(text.as_bytes())
}

fn are_solid(bytes: &[u8]) -> bool
    ensures { result ≡ list_all (λ byte. not (nat_eq byte 32 || nat_eq byte 9)) bytes.now }
{
    bytes.iter().all(|byte| !(*byte == b' ' || *byte == b'\t'))
}

/// At most 4,096 names in first-seen order, none twice. Contracts see the list of their bytes.
#[derive(Drop)]
pub struct Names {
    texts: IndexSet<String>,
}

impl Model for Names {
    ghost use Rattle.std.specs.Prelude.{List, ℕ, map};
    ghost use Rattle.std.specs.String.{string_bytes};
    ghost use Rattle.mixed_model.specs.Names.{IsNameList};

    ghost Value = { List (List ℕ) };

    ghost view = { λ n. map string_bytes n.texts.keys };

    ghost invariant = { λ n. IsNameList (map string_bytes n.texts.keys) };
}

impl Names {
    /// A list without names.
    #[tactic(auto, using(crate::proofs::NameLaws::no_names))]
    pub fn new(alloc: Global) -> Self
        ensures empty { result ≡ [] }
        ensures names { IsNameList result }
    {
        Names {
            texts: IndexSet::new(alloc),
        }
    }

    /// How many names there are.
    pub fn len(&self) -> usize
        ensures count { result ≡ length self.now }
        ensures names { IsNameList self.now }
    {
        self.texts.len()
    }

    /// The name at a place, counted from 0.
    pub fn get(&self, place: usize) -> &str
        requires { place < length self.now }
        ensures { slice_get self.now place ≡ Some result.now }
    {
        self.texts.as_slice()[place].as_str()
    }

    /// The place of a name, where it is there.
    #[tactic(auto, using(crate::proofs::NameLaws::position_map))]
    pub fn find(&self, name: &str) -> Option<usize>
        ensures place { result ≡ position (bytes_eq name.now) self.now }
        ensures names { IsNameList self.now }
    {
        self.texts.get_index_of(name)
    }

    /// Whether a name is there.
    #[tactic(auto, using(crate::proofs::NameLaws::list_any_map))]
    pub fn has(&self, name: &str) -> bool
        ensures there { result ≡ has_name self.now name.now }
        ensures names { IsNameList self.now }
    {
        self.texts.contains(name)
    }

    /// Puts a name last, and gives its place. `Twice` comes where it is there, else `TooMany` where 4,096 names are. A
    /// refusal changes nothing.
    #[tactic(auto, using(crate::proofs::NameLaws::adding_laws))]
    pub fn add(&mut self, name: &str) -> Result<usize, AddError>
        requires { IsTrue (is_label name.now) }
        ensures answer { AnswersAdd result (adding self.old name.now) }
        ensures added { OnOk result (self.new ≡ self.old ++ name.now ∷ []) }
        ensures kept { OnErr result (self.new ≡ self.old) }
        ensures names { IsNameList self.new }
    {
        if self.is_full() {
            return Err(self.full_for(name));
        }
        let place = self.len();
        if push_text(&mut self.texts, name)? {
            Ok(place)
        } else {
            Err(AddError::Twice)
        }
    }

    /// Takes out the name at a place. Later ones move up by one.
    pub fn remove(&mut self, place: usize)
        requires { place < length self.old }
        ensures removed { self.new ≡ remove self.old place }
        ensures names { IsNameList self.new }
    {
        self.texts.shift_remove_index(place);
    }

    /// The same list once more.
    pub fn copy(&self) -> Result<Names, NoMemory>
        ensures same { IfOk result (λ copy. copy ≡ self.now) }
        ensures names { IfOk result IsNameList }
    {
        Ok(Names {
            texts: self.texts.clone()?,
        })
    }

    /// The place of a name, which is put last unless it is there. `TooMany` comes where it is not there and 4,096
    /// others are. A refusal changes nothing.
    #[tactic(auto, using(crate::proofs::NameLaws::seeing_laws))]
    pub fn find_or_add(&mut self, name: &str) -> Result<usize, AddError>
        requires { IsTrue (is_label name.now) }
        ensures answer { AnswersAdd result (seeing self.old name.now) }
        ensures seen { OnOk result (self.new ≡ see self.old name.now) }
        ensures kept { OnErr result (self.new ≡ self.old) }
        ensures names { IsNameList self.new }
    {
        match self.find(name) {
            Some(place) => Ok(place),
            None => self.append(name),
        }
    }

    // Puts a new name last, and gives its place. A refusal changes nothing.
    #[tactic(auto, using(crate::proofs::NameLaws::appending_laws))]
    fn append(&mut self, name: &str) -> Result<usize, AddError>
        requires label { IsTrue (is_label name.now) }
        requires new { has_name self.old name.now ≡ false }
        ensures answer { AnswersAdd result (appending self.old) }
        ensures added { OnOk result (self.new ≡ self.old ++ name.now ∷ []) }
        ensures kept { OnErr result (self.new ≡ self.old) }
        ensures names { IsNameList self.new }
    {
        if self.is_full() {
            return Err(AddError::TooMany);
        }
        let place = self.len();
        push_text(&mut self.texts, name)?;
        Ok(place)
    }

    fn is_full(&self) -> bool
        ensures { result ≡ nat_le equation_limit (length self.now) }
    {
        self.len() >= EQUATION_LIMIT
    }

    // Why a name is not added where 4,096 are.
    fn full_for(&self, name: &str) -> AddError
        requires { equation_limit ≤ length self.now }
        ensures { Err result ≡ adding self.now name.now }
    {
        if self.has(name) {
            AddError::Twice
        } else {
            AddError::TooMany
        }
    }
}

// Puts a text last, unless it is there, and tells whether it was new. One look finds both.
fn push_text(texts: &mut IndexSet<String>, text: &str) -> Result<bool, AllocError>
    ensures new { IfOk result (λ new. new ≡ not (has_name (map string_bytes texts.old.keys) text.now)) }
    ensures seen { OnOk result (map string_bytes texts.new.keys ≡ see (map string_bytes texts.old.keys) text.now) }
    ensures kept { OnErr result (texts.new.keys ≡ texts.old.keys) }
{
    let text = String::from_str(*texts.allocator(), text)?;
    let new = texts.insert(text)?;
    Ok(new)
}
