//! Models: named equations over named unknowns.

ghost use Rattle.std.specs.Prelude.{ℕ, ◌≡◌, ◌≢◌, ◌<◌, IsTrue, [], length, position, slice_get, Some, IfOk, OnOk, OnErr};
ghost use Rattle.std.specs.Option.{option_map};
ghost use Rattle.std.specs.Str.{bytes_eq};
ghost use Rattle.mixed_matrices.specs.Layerings.{has_constant, has_symbol};
ghost use Rattle.mixed_model.specs.Names.{is_label, adding, seeing, AnswersAdd};
ghost use Rattle.mixed_model.specs.Rows.{putting, putting_symbol};
ghost use Rattle.mixed_model.specs.Models.{MixedModel, IsModel, PutsAt, PutsSymbolAt, SetsPlace, constant_of, symbol_of};
ghost use Rattle.mixed_model.specs.Models.{row_of, mixed_matrix_of, empty_model, with_equation, equation_removed};
ghost use Rattle.mixed_model.specs.Models.{with_unknown, with_seen_unknown};

use crate::entry::{Entries, Entry};
use crate::errors::AddError;
use crate::names::Names;
use crate::rows;
use out_of_memory::NoMemory;
use residue_field::Field;
use std::alloc::Global;
use std::marker::Model;

// How many equations have room at first.
const FIRST_ROOM: usize = 16;

/// A mixed matrix over F with named equations as rows and named unknowns as columns, both numbered from 0 in the order
/// in which they were added, at most 4,096 of each: at each place perhaps a constant, and perhaps a symbol of its own.
/// (Murota, chapter 4.)
#[derive(Drop)]
pub struct Mixed<F: Field> {
    equations: Names,
    unknowns: Names,
    rows: Vec<Vec<Entry<F>>>,
}

impl<F: Field> Model for Mixed<F> {
    ghost use Rattle.std.specs.Prelude.{map};
    ghost use Rattle.mixed_model.specs.Models.{MixedModel, IsModel};

    ghost Value = { MixedModel };

    ghost view = { λ m. record {
      equations = m.equations;
      unknowns = m.unknowns;
      rows = map (λ row. row.items) m.rows.items;
    } };

    ghost invariant = { λ m. IsModel F.modulus (record {
      equations = m.equations;
      unknowns = m.unknowns;
      rows = map (λ row. row.items) m.rows.items;
    }) };
}

impl<F: Field> Mixed<F> {
    /// A model without equations and unknowns.
    pub fn new(alloc: Global) -> Result<Mixed<F>, NoMemory>
        ensures empty { IfOk result (λ m. m ≡ empty_model) }
        ensures model { IfOk result (IsModel F.modulus) }
    {
        Ok(Mixed {
            equations: Names::new(alloc),
            unknowns: Names::new(alloc),
            rows: Vec::with_capacity(alloc, FIRST_ROOM)?,
        })
    }

    /// The same model once more.
    pub fn copy(&self) -> Result<Mixed<F>, NoMemory>
        ensures same { IfOk result (λ m. m ≡ self.now) }
        ensures model { IfOk result (IsModel F.modulus) }
    {
        Ok(Mixed {
            equations: self.equations.copy()?,
            unknowns: self.unknowns.copy()?,
            rows: rows::copy_rows(&self.rows)?,
        })
    }

    /// Tells a proof what a model keeps. It does nothing when it runs.
    pub fn is_model(&self)
        ensures { IsModel F.modulus self.now }
    {
        // a proof knows what the type keeps once a field is read
        let _ = &self.equations;
    }

    /// How many equations there are.
    pub fn equations(&self) -> usize
        ensures count { result ≡ length self.now.equations }
        ensures model { IsModel F.modulus self.now }
    {
        self.equations.len()
    }

    /// How many unknowns there are.
    pub fn unknowns(&self) -> usize
        ensures count { result ≡ length self.now.unknowns }
        ensures model { IsModel F.modulus self.now }
    {
        self.unknowns.len()
    }

    /// The name of equation `i`.
    pub fn equation_name(&self, i: usize) -> &str
        requires { i < length self.now.equations }
        ensures { slice_get self.now.equations i ≡ Some result.now }
    {
        self.equations.get(i)
    }

    /// The name of unknown `j`.
    pub fn unknown_name(&self, j: usize) -> &str
        requires { j < length self.now.unknowns }
        ensures { slice_get self.now.unknowns j ≡ Some result.now }
    {
        self.unknowns.get(j)
    }

    /// The equation of this name.
    pub fn find_equation(&self, name: &str) -> Option<usize>
        ensures { result ≡ position (bytes_eq name.now) self.now.equations }
    {
        self.equations.find(name)
    }

    /// The unknown of this name.
    pub fn find_unknown(&self, name: &str) -> Option<usize>
        ensures { result ≡ position (bytes_eq name.now) self.now.unknowns }
    {
        self.unknowns.find(name)
    }

    /// The constant of equation `i` at unknown `j`: none where it is 0.
    pub fn constant(&self, i: usize, j: usize) -> Option<F>
        requires equation { i < length self.now.equations }
        requires unknown { j < length self.now.unknowns }
        ensures { option_map F.number result ≡ constant_of self.now i j }
    {
        match rows::entry_in_row(&self.rows, i, j) {
            Some(entry) => entry.constant,
            None => None,
        }
    }

    /// Whether equation `i` has a symbol at unknown `j`.
    pub fn symbol(&self, i: usize, j: usize) -> bool
        requires equation { i < length self.now.equations }
        requires unknown { j < length self.now.unknowns }
        ensures { result ≡ symbol_of self.now i j }
    {
        match rows::entry_in_row(&self.rows, i, j) {
            Some(entry) => entry.symbol,
            None => false,
        }
    }

    /// Whether equation `i` has a constant other than 0.
    pub fn has_constant(&self, i: usize) -> bool
        requires { i < length self.now.equations }
        ensures { result ≡ has_constant (mixed_matrix_of self.now) i }
    {
        rows::any_constant(&self.rows, i)
    }

    /// Whether equation `i` has a symbol.
    pub fn has_symbol(&self, i: usize) -> bool
        requires { i < length self.now.equations }
        ensures { result ≡ has_symbol (mixed_matrix_of self.now) i }
    {
        rows::any_symbol(&self.rows, i)
    }

    /// The entries of equation `i` by rising column, each with a constant other than 0, a symbol, or both.
    pub fn entries(&self, i: usize) -> Entries<'_, F>
        requires { i < length self.now.equations }
        ensures entries { result ≡ row_of self.now i }
        ensures model { IsModel F.modulus self.now }
    {
        Entries::new(&self.rows[i])
    }

    /// Adds an equation with nothing at its places, and gives its number. `Twice` comes where the name is there, else
    /// `TooMany` where 4,096 equations are. A refusal changes nothing.
    pub fn add_equation(&mut self, name: &str) -> Result<usize, AddError>
        requires { IsTrue (is_label name.now) }
        ensures answer { AnswersAdd result (adding self.old.equations name.now) }
        ensures added { OnOk result (self.new ≡ with_equation self.old name.now) }
        ensures kept { OnErr result (self.new ≡ self.old) }
        ensures model { IsModel F.modulus self.new }
    {
        let alloc = *self.rows.allocator();
        self.rows.reserve(1)?;
        let place = self.equations.add(name)?;
        self.rows.push(Vec::new(alloc)).unwrap();
        Ok(place)
    }

    /// Takes out equation `i`, with all that stands at its places. Later equations move up by one, and the unknowns
    /// stay.
    pub fn remove_equation(&mut self, i: usize)
        requires { i < length self.old.equations }
        ensures removed { self.new ≡ equation_removed self.old i }
        ensures model { IsModel F.modulus self.new }
    {
        self.equations.remove(i);
        self.rows.remove(i);
    }

    /// Adds an unknown, and gives its number. `Twice` comes where the name is there, else `TooMany` where 4,096
    /// unknowns are. A refusal changes nothing.
    pub fn add_unknown(&mut self, name: &str) -> Result<usize, AddError>
        requires { IsTrue (is_label name.now) }
        ensures answer { AnswersAdd result (adding self.old.unknowns name.now) }
        ensures added { OnOk result (self.new ≡ with_unknown self.old name.now) }
        ensures kept { OnErr result (self.new ≡ self.old) }
        ensures model { IsModel F.modulus self.new }
    {
        self.unknowns.add(name)
    }

    /// The number of the unknown of this name, which is added where there is none. `TooMany` comes where there is
    /// none and 4,096 others are. A refusal changes nothing.
    pub fn find_or_add_unknown(&mut self, name: &str) -> Result<usize, AddError>
        requires { IsTrue (is_label name.now) }
        ensures answer { AnswersAdd result (seeing self.old.unknowns name.now) }
        ensures seen { OnOk result (self.new ≡ with_seen_unknown self.old name.now) }
        ensures kept { OnErr result (self.new ≡ self.old) }
        ensures model { IsModel F.modulus self.new }
    {
        self.unknowns.find_or_add(name)
    }

    /// Puts a constant other than 0 at the place of equation `i` and unknown `j`. `Twice` comes where one is
    /// there. A refusal changes nothing.
    pub fn put_constant(&mut self, i: usize, j: usize, value: F) -> Result<(), AddError>
        requires equation { i < length self.old.equations }
        requires unknown { j < length self.old.unknowns }
        requires value { F.number value ≢ 0 }
        ensures answer { AnswersAdd result (putting (row_of self.old i) j) }
        ensures put { OnOk result (PutsAt self.old self.new i j (F.number value)) }
        ensures kept { OnErr result (self.new ≡ self.old) }
        ensures model { IsModel F.modulus self.new }
    {
        rows::put_constant_in_row(&mut self.rows, i, j, value)
    }

    /// Puts a symbol at the place of equation `i` and unknown `j`. `Twice` comes where one is there. A refusal
    /// changes nothing.
    pub fn put_symbol(&mut self, i: usize, j: usize) -> Result<(), AddError>
        requires equation { i < length self.old.equations }
        requires unknown { j < length self.old.unknowns }
        ensures answer { AnswersAdd result (putting_symbol (row_of self.old i) j) }
        ensures put { OnOk result (PutsSymbolAt self.old self.new i j) }
        ensures kept { OnErr result (self.new ≡ self.old) }
        ensures model { IsModel F.modulus self.new }
    {
        rows::put_symbol_in_row(&mut self.rows, i, j)
    }

    /// Leaves just this constant, which is not 0, and this symbol at the place of equation `i` and unknown `j`. With
    /// neither of them the place is empty. Where memory runs out nothing changes.
    pub fn set_place(
        &mut self,
        i: usize,
        j: usize,
        constant: Option<F>,
        symbol: bool,
    ) -> Result<(), NoMemory>
        requires equation { i < length self.old.equations }
        requires unknown { j < length self.old.unknowns }
        requires constant { option_map F.number constant ≢ Some 0 }
        ensures set { OnOk result (SetsPlace self.old self.new i j (option_map F.number constant) symbol) }
        ensures kept { OnErr result (self.new ≡ self.old) }
        ensures model { IsModel F.modulus self.new }
    {
        rows::set_in_row(&mut self.rows, i, j, constant, symbol)
    }
}

/// Models with the same names, the same constants and the same symbols are the same.
pub fn places_tell_a_model()
    ensures { (p : ℕ) (a b : MixedModel) → IsModel p a → IsModel p b
        → a.equations ≡ b.equations → a.unknowns ≡ b.unknowns
        → ((i j : ℕ) → i < length a.equations → j < length a.unknowns → constant_of a i j ≡ constant_of b i j)
        → ((i j : ℕ) → i < length a.equations → j < length a.unknowns → symbol_of a i j ≡ symbol_of b i j) → a ≡ b }
{}
