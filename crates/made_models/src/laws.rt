//! Draws and entries at worked examples, and that a size has one model.

ghost use Rattle.std.specs.Prelude.{◌≡◌, ◌<◌, ℕ, [], ◌∷◌, map, true, false, Some, None};
ghost use Rattle.made_models.specs.Draws.{draw};
ghost use Rattle.made_models.specs.MadeModels.{IsMade, made_constant, made_symbol};
ghost use Rattle.mixed_model.specs.Models.{IsModel, MixedModel};

/// The first ten draws of the generator that starts at 2.
pub fn draws_at_examples()
    ensures { map (draw 2) (0 ∷ 1 ∷ 2 ∷ 3 ∷ 4 ∷ 5 ∷ 6 ∷ 7 ∷ 8 ∷ 9 ∷ []) ≡ 96542 ∷ 365211588 ∷ 435306125 ∷ 1681957627
        ∷ 2009854435 ∷ 814711366 ∷ 64320675 ∷ 1709433010 ∷ 1129173382 ∷ 1045878015 ∷ [] }
{}

/// The model of size 2: the first equation has the constant 33,538 at the first unknown and a symbol at the second one,
/// the second equation two symbols.
pub fn entries_at_examples()
    ensures constant { made_constant 2 0 0 ≡ Some 33538 }
    ensures constant_alone { made_symbol 2 0 0 ≡ false }
    ensures symbol { made_symbol 2 0 1 ≡ true }
    ensures symbol_alone { made_constant 2 0 1 ≡ None }
    ensures second_symbols { map (made_symbol 2 1) (0 ∷ 1 ∷ []) ≡ true ∷ true ∷ [] }
    ensures second_constants { map (made_constant 2 1) (0 ∷ 1 ∷ []) ≡ None ∷ None ∷ [] }
{}

/// There is one model of each size.
pub fn there_is_one_made_model()
    ensures { (p n : ℕ) (a b : MixedModel) → IsModel p a → IsModel p b → IsMade n a → IsMade n b → a ≡ b }
{}
