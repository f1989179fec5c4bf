//! The numbers that the lines of a head give, found by their names.

ghost use Rattle.std.specs.Prelude.{◌≡◌, ◌∷◌, [], ℕ, List, map, IfOk, option_map};
ghost use Rattle.std.specs.String.{string_bytes};
ghost use Rattle.problem_heads.specs.HeadNumbers.{number_for, spaced_names};
ghost use Rattle.problem_heads.specs.HeadReading.{AddsNumber};
ghost use Rattle.problem_heads.specs.Problems.{first_undeclared, sides_of};

use crate::given::HeadNumber;
use crate::places::is_declared;
use indexmap::IndexSet;
use mixed_model::Mixed;
use out_of_memory::NoMemory;
use refusals::{Fault, Why};
use residue_field::Field;
use std::alloc::Global;
use std::marker::Model;

/// How many lines of a head were read, and the numbers that they gave, none twice for the same names.
#[derive(Drop)]
pub(crate) struct HeadLines<N: Copy + Drop> {
    lines: u32,
    keys: IndexSet<String>,
    numbers: Vec<HeadNumber<N>>,
}

impl<N: Copy + Drop> Model for HeadLines<N> {
    ghost use Rattle.std.specs.Prelude.{◌≡◌, map};
    ghost use Rattle.std.specs.String.{string_bytes};
    ghost use Rattle.problem_heads.specs.HeadNumbers.{spaced_names};
    ghost use Rattle.problem_heads.specs.HeadReading.{HeadParts};

    ghost Value = { HeadParts N };

    ghost view = { λ h. record { lines = h.lines; numbers = h.numbers.items } };

    // a text for each, by which it is found
    ghost invariant = { λ h.
        map string_bytes h.keys.keys ≡ map (λ given. spaced_names given.names) h.numbers.items };
}

impl<N: Copy + Drop> HeadLines<N> {
    /// No line was read.
    pub fn new(alloc: Global) -> HeadLines<N>
        ensures { result ≡ record { lines = 0; numbers = [] } }
    {
        HeadLines {
            lines: 0,
            keys: IndexSet::new(alloc),
            numbers: Vec::new(alloc),
        }
    }

    /// How many lines were read.
    pub fn lines(&self) -> u32
        ensures { result ≡ self.now.lines }
    {
        self.lines
    }

    /// The line of this number was read, and gave nothing.
    pub fn pass(&mut self, line: u32)
        ensures { self.new ≡ record { lines = line; numbers = self.old.numbers } }
    {
        self.lines = line;
    }

    /// The line of this number gave a number for an equation. `Twice` comes where one was given. A fault changes no
    /// number.
    pub fn add_for_equation(&mut self, line: u32, equation: &str, number: N) -> Result<(), Fault>
        ensures { AddsNumber self.old self.new
            (record { line = line; names = equation.now ∷ []; number = number }) result }
    {
        let alloc = *self.numbers.allocator();
        let key = equation_key(alloc, equation)?;
        let given = HeadNumber {
            line,
            equation: String::from_str(alloc, equation)?,
            unknown: None,
            number,
        };
        self.add(key, given)
    }

    /// The line of this number gave a number for the place of an equation and an unknown. `Twice` comes where one was
    /// given. A fault changes no number.
    pub fn add_for_place(
        &mut self,
        line: u32,
        equation: &str,
        unknown: &str,
        number: N,
    ) -> Result<(), Fault>
        ensures { AddsNumber self.old self.new
            (record { line = line; names = equation.now ∷ unknown.now ∷ []; number = number }) result }
    {
        let alloc = *self.numbers.allocator();
        let key = place_key(alloc, equation, unknown)?;
        let given = HeadNumber {
            line,
            equation: String::from_str(alloc, equation)?,
            unknown: Some(String::from_str(alloc, unknown)?),
            number,
        };
        self.add(key, given)
    }

    fn add(&mut self, key: String, given: HeadNumber<N>) -> Result<(), Fault>
        requires { string_bytes key ≡ spaced_names given.names }
        ensures { AddsNumber self.old self.new given result }
    {
        let line = given.line;
        self.numbers.reserve(1)?;
        if !self.keys.insert(key)? {
            return Err(Fault::Broken(Why::Twice));
        }
        self.numbers.push(given).unwrap();
        self.lines = line;
        Ok(())
    }

    /// The number that was given for an equation.
    pub fn for_equation(&self, equation: &str) -> Result<Option<N>, NoMemory>
        ensures { IfOk result (λ found. found ≡ number_for self.now.numbers (equation.now ∷ [])) }
    {
        let key = equation_key(*self.numbers.allocator(), equation)?;
        Ok(self.find(&key))
    }

    /// The number that was given for the place of an equation and an unknown.
    pub fn for_place(&self, equation: &str, unknown: &str) -> Result<Option<N>, NoMemory>
        ensures { IfOk result (λ found.
            found ≡ number_for self.now.numbers (equation.now ∷ unknown.now ∷ [])) }
    {
        let key = place_key(*self.numbers.allocator(), equation, unknown)?;
        Ok(self.find(&key))
    }

    fn find(&self, key: &str) -> Option<N>
        ensures { (names : List (List ℕ)) → key.now ≡ spaced_names names
            → result ≡ number_for self.now.numbers names }
    {
        match self.keys.get_index_of(key) {
            Some(place) => Some(self.numbers[place].number),
            None => None,
        }
    }

    /// The line of the first number that was given for what a model has not.
    pub fn first_undeclared<F: Field>(&self, model: &Mixed<F>) -> Option<u32>
        ensures { result ≡ option_map (λ given. given.line) (first_undeclared model.now self.now.numbers) }
    {
        let given = self
            .numbers
            .iter()
            .find(|given| !is_declared(model, given))?;
        Some(given.line)
    }

    /// For each equation of a model the number that was given for it, or else this one.
    pub fn sides<F: Field>(
        &self,
        alloc: Global,
        model: &Mixed<F>,
        default: N,
    ) -> Result<Vec<N>, NoMemory>
        ensures { IfOk result (λ sides. sides.items ≡ sides_of self.now.numbers default model.now.equations) }
    {
        let mut sides = Vec::new(alloc);
        for i in 0..model.equations() {
            let found = self.for_equation(model.equation_name(i))?;
            sides.push(found.unwrap_or(default))?;
        }
        Ok(sides)
    }
}

// The text by which a number for an equation is found.
fn equation_key(alloc: Global, equation: &str) -> Result<String, NoMemory>
    ensures { IfOk result (λ key. string_bytes key ≡ spaced_names (equation.now ∷ [])) }
{
    let mut key = String::from_str(alloc, equation)?;
    key.push(' ')?;
    Ok(key)
}

// The text by which a number for a place is found.
fn place_key(alloc: Global, equation: &str, unknown: &str) -> Result<String, NoMemory>
    ensures { IfOk result (λ key. string_bytes key ≡ spaced_names (equation.now ∷ unknown.now ∷ [])) }
{
    let mut key = equation_key(alloc, equation)?;
    key.push_str(unknown)?;
    key.push(' ')?;
    Ok(key)
}
