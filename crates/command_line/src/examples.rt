//! Words of the command line at worked examples.

ghost use Rattle.std.specs.Prelude.{[], ◌∷◌, None, Some, codes};
ghost use Rattle.cert_text.specs.declared.kind.Kind.TheVariants.{Flowsheet, Matrix, Netlist};
ghost use Rattle.command_line.specs.Words.{AsksFor, AsksForNothing, AsksToMake};
ghost use Rattle.command_line.specs.declared.command.Command.TheVariants.{Check, Edit, OfModel, OfStudy};
ghost use Rattle.command_line.specs.declared.command.Study.TheVariants.{Conflict, Repair, Solve, Values};
ghost use Rattle.residue_field.specs.declared.field_name.FieldName.TheVariants.{Large, Small};
ghost use Rattle.command_line.specs.declared.command.Task.TheVariants.{Analyse, Layer, Plan, Report};

/// What words ask for at worked examples.
pub fn words_at_examples()
    ensures analyse { AsksFor (codes "mixed" ∷ codes "analyse" ∷ codes "matrix" ∷ []) (OfModel Analyse Matrix None) }
    ensures layer { AsksFor (codes "mixed" ∷ codes "layer" ∷ codes "netlist" ∷ []) (OfModel Layer Netlist None) }
    ensures report { AsksFor (codes "mixed" ∷ codes "report" ∷ codes "flowsheet" ∷ []) (OfModel Report Flowsheet None) }
    ensures plan { AsksFor (codes "mixed" ∷ codes "plan" ∷ codes "matrix" ∷ []) (OfModel Plan Matrix None) }
    ensures check { AsksFor (codes "mixed" ∷ codes "check" ∷ []) Check }
    ensures edit { AsksFor (codes "mixed" ∷ codes "edit" ∷ []) Edit }
    ensures values { AsksFor (codes "mixed" ∷ codes "values" ∷ codes "matrix" ∷ []) (OfStudy Values Matrix) }
    ensures solve { AsksFor (codes "mixed" ∷ codes "solve" ∷ codes "netlist" ∷ []) (OfStudy Solve Netlist) }
    ensures repair { AsksFor (codes "mixed" ∷ codes "repair" ∷ codes "matrix" ∷ []) (OfStudy Repair Matrix) }
    ensures conflict { AsksFor (codes "mixed" ∷ codes "conflict" ∷ codes "flowsheet" ∷ [])
        (OfStudy Conflict Flowsheet) }
    ensures make { AsksToMake (codes "mixed" ∷ codes "make" ∷ codes "2" ∷ []) 2 None }
    ensures make_most { AsksToMake (codes "mixed" ∷ codes "make" ∷ codes "400" ∷ []) 400 None }
    ensures make_zeros { AsksToMake (codes "mixed" ∷ codes "make" ∷ codes "007" ∷ []) 7 None }
    ensures make_plus { AsksToMake (codes "mixed" ∷ codes "make" ∷ codes "+5" ∷ []) 5 None }
    ensures layer_large { AsksFor (codes "mixed" ∷ codes "layer" ∷ codes "matrix" ∷ codes "2147483647" ∷ [])
        (OfModel Layer Matrix (Some Large)) }
    ensures report_small { AsksFor (codes "mixed" ∷ codes "report" ∷ codes "netlist" ∷ codes "65521" ∷ [])
        (OfModel Report Netlist (Some Small)) }
    ensures make_large { AsksToMake (codes "mixed" ∷ codes "make" ∷ codes "2" ∷ codes "2147483647" ∷ []) 2
        (Some Large) }
    ensures make_none { AsksForNothing (codes "mixed" ∷ codes "make" ∷ codes "0" ∷ []) }
    ensures make_more { AsksForNothing (codes "mixed" ∷ codes "make" ∷ codes "401" ∷ []) }
    ensures make_word { AsksForNothing (codes "mixed" ∷ codes "make" ∷ codes "x" ∷ []) }
    ensures make_alone { AsksForNothing (codes "mixed" ∷ codes "make" ∷ []) }
    ensures check_of_kind { AsksForNothing (codes "mixed" ∷ codes "check" ∷ codes "matrix" ∷ []) }
    ensures edit_of_kind { AsksForNothing (codes "mixed" ∷ codes "edit" ∷ codes "matrix" ∷ []) }
    ensures no_word { AsksForNothing (codes "mixed" ∷ []) }
    ensures no_kind { AsksForNothing (codes "mixed" ∷ codes "analyse" ∷ []) }
    ensures unknown_kind { AsksForNothing (codes "mixed" ∷ codes "analyse" ∷ codes "picture" ∷ []) }
    ensures unknown_field { AsksForNothing (codes "mixed" ∷ codes "analyse" ∷ codes "matrix" ∷ codes "7" ∷ []) }
    ensures field_of_zeros { AsksForNothing (codes "mixed" ∷ codes "plan" ∷ codes "matrix" ∷ codes "065521" ∷ []) }
    ensures make_unknown_field { AsksForNothing (codes "mixed" ∷ codes "make" ∷ codes "2" ∷ codes "7" ∷ []) }
    ensures check_of_field { AsksForNothing (codes "mixed" ∷ codes "check" ∷ codes "65521" ∷ []) }
    ensures study_of_field { AsksForNothing
        (codes "mixed" ∷ codes "values" ∷ codes "matrix" ∷ codes "65521" ∷ []) }
    ensures study_alone { AsksForNothing (codes "mixed" ∷ codes "solve" ∷ []) }
    ensures too_many { AsksForNothing
        (codes "mixed" ∷ codes "analyse" ∷ codes "matrix" ∷ codes "65521" ∷ codes "more" ∷ []) }
    ensures help { AsksForNothing (codes "mixed" ∷ codes "help" ∷ []) }
    ensures help_flag { AsksForNothing (codes "mixed" ∷ codes "analyse" ∷ codes "--help" ∷ []) }
    ensures part { AsksForNothing (codes "mixed" ∷ codes "anal" ∷ codes "matrix" ∷ []) }
{}
