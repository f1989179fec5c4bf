//! What the list of a model's symbols tells of each of them.

ghost use Rattle.std.specs.Prelude.{ℕ, ◌≡◌, List, slice_get, Some};
ghost use Rattle.mixed_matrices.specs.Models.{MixedMatrix};
ghost use Rattle.value_list_laws.specs.FixedSymbols.{IsSymbolPlace};
ghost use Rattle.value_list_laws.specs.ListedValues.{symbols_before};
ghost use Rattle.symbol_places.specs.Places.{AreSymbolPlaces};
ghost use Rattle.symbol_places.specs.declared.places.SymbolPlace.{SymbolPlace};

/// Each symbol has its place in the list, behind those of the symbols that stand before it.
pub fn each_symbol_has_its_place()
    ensures { (M : MixedMatrix) (places : List SymbolPlace) → AreSymbolPlaces M places
        → (i j : ℕ) → IsSymbolPlace M i j
        → slice_get places (symbols_before M i j) ≡ Some (record { equation = i; unknown = j }) }
{}
