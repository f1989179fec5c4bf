//! Names in the order in which they were declared.

ghost use Rattle.std.specs.Prelude.{◌≡◌, ◌∷◌, ◌++◌, [], ◌<◌, false, length, map, slice_get, Some, IfOk, OnOk, OnErr};
ghost use Rattle.std.specs.String.{string_bytes};
ghost use Rattle.mixed_model.specs.Names.{has_name};

use indexmap::IndexSet;
use mixed_model::Mixed;
use out_of_memory::NoMemory;
use residue_field::Field;
use std::alloc::Global;
use std::marker::Model;

/// Names, none twice. Contracts see the list of their bytes.
#[derive(Drop)]
pub struct NameSet {
    texts: IndexSet<String>,
}

impl Model for NameSet {
    ghost use Rattle.std.specs.Prelude.{List, ℕ, map};
    ghost use Rattle.std.specs.String.{string_bytes};

    ghost Value = { List (List ℕ) };

    ghost view = { λ n. map string_bytes n.texts.keys };
}

impl NameSet {
    /// No names.
    pub fn new(alloc: Global) -> NameSet
        ensures { result ≡ [] }
    {
        NameSet {
            texts: IndexSet::new(alloc),
        }
    }

    /// One name.
    pub fn of_one(alloc: Global, name: &str) -> Result<NameSet, NoMemory>
        ensures { IfOk result (λ names. names ≡ name.now ∷ []) }
    {
        let mut names = NameSet::new(alloc);
        names.push(name)?;
        Ok(names)
    }

    /// How many names there are.
    pub fn len(&self) -> usize
        ensures { result ≡ length self.now }
    {
        self.texts.len()
    }

    /// Whether a name is there.
    #[tactic(auto, using(mixed_model::proofs::NameLaws::list_any_map))]
    pub fn has(&self, name: &str) -> bool
        ensures { result ≡ has_name self.now name.now }
    {
        self.texts.contains(name)
    }

    /// The name at a place, counted from 0.
    pub fn get(&self, place: usize) -> &str
        requires { place < length self.now }
        ensures { slice_get self.now place ≡ Some result.now }
    {
        self.texts.as_slice()[place].as_str()
    }

    /// The names, as a slice.
    pub fn as_slice(&self) -> &[String]
        ensures { map string_bytes result.now ≡ self.now }
    {
        self.texts.as_slice()
    }

    /// Puts a new name last. A want of memory changes nothing.
    pub fn push(&mut self, name: &str) -> Result<(), NoMemory>
        requires { has_name self.old name.now ≡ false }
        ensures pushed { OnOk result (self.new ≡ self.old ++ name.now ∷ []) }
        ensures kept { OnErr result (self.new ≡ self.old) }
    {
        let name = String::from_str(*self.texts.allocator(), name)?;
        self.texts.insert(name)?;
        Ok(())
    }
}

/// Names that are declared.
pub trait Declared {
    ghost use Rattle.std.specs.Prelude.{List, ℕ};

    ghost names: { Self → List (List ℕ) };

    // Whether a name is among them.
    fn declares(&self, name: &str) -> bool
        ensures { result ≡ has_name (names self.now) name.now };
}

impl Declared for NameSet {
    ghost names = { λ names. names };

    fn declares(&self, name: &str) -> bool {
        self.has(name)
    }
}

impl<F: Field> Declared for Mixed<F> {
    ghost names = { λ model. model.unknowns };

    fn declares(&self, name: &str) -> bool {
        self.find_unknown(name).is_some()
    }
}
