//! Worked examples of netlists, read modulo 65,521.

ghost use Rattle.std.specs.Prelude.{◌≡◌, ◌∷◌, ◌++◌, [], true, false, codes, Some, None};
ghost use Rattle.line_lexer.specs.Tokens.{words_of};
ghost use Rattle.line_reader.specs.LineRules.{line_rule};
ghost use Rattle.netlist_devices.specs.EquationNames.{unknowns_of, equations_of};
ghost use Rattle.netlist_devices.specs.Rules.{device_rules, ground_rule, source_rule};
ghost use Rattle.netlist_reader.specs.Models.{GivesModel, IsRefusal};
ghost use Rattle.netlist_reader.specs.Examples.{devices_of, controlled_source, opamps, transformer, loop, constants_in};
ghost use Rattle.netlist_reader.specs.Examples.{symbols_in, refusal, two_lines, controlled_text, controlled_model};
ghost use Rattle.netlist_reader.specs.Examples.{loses_no_term, all_kinds};

use refusals::{Place, Why};

/// The rules at worked examples: lines that keep them, and lines that break one.
pub fn rules_at_examples()
    ensures remark { line_rule (device_rules 65521) [] (codes " * any " ++ 128 ∷ []) ≡ None }
    ensures values { line_rule (device_rules 65521) [] (codes "r1 a b 1k ic=0 # any") ≡ None }
    ensures byte { line_rule (device_rules 65521) [] (codes "R1 a b " ++ 128 ∷ []) ≡ Some Why.BadByte }
    ensures unsupported { line_rule (device_rules 65521) [] (codes "D1 a 0") ≡ Some Why.Unsupported }
    ensures shape { line_rule (device_rules 65521) [] (codes "R1 a") ≡ Some Why.BadShape }
    ensures long_directive { line_rule (device_rules 65521) [] (codes ".opamp U1 a b c d") ≡ Some Why.BadShape }
    ensures name { line_rule (device_rules 65521) [] (codes ".opamp 1U a b c") ≡ Some Why.BadName }
    ensures node { line_rule (device_rules 65521) [] (codes "R1 a =") ≡ Some Why.BadName }
    ensures source { line_rule (device_rules 65521) [] (codes "F1 a 0 9V") ≡ Some Why.BadName }
    ensures number { line_rule (device_rules 65521) [] (codes ".gyrator G1 a 0 b 0 1k") ≡ Some Why.BadNumber }
    ensures vanish { line_rule (device_rules 65521) [] (codes ".transformer T1 a 0 b 0 65521") ≡ Some Why.Vanish }
    ensures twice { line_rule (device_rules 65521) (words_of (codes "R1 a 0") ∷ []) (codes "R1 a 0") ≡ Some Why.Twice }
    ensures other_case { line_rule (device_rules 65521) (words_of (codes "R1 a 0") ∷ []) (codes "r1 a 0") ≡ None }
{}

/// The rules of a whole netlist at worked examples.
pub fn devices_at_examples()
    ensures no_ground { ground_rule (devices_of (codes "R1 a b" ∷ [])) ≡ Some Why.NoGround }
    ensures empty { ground_rule (devices_of (codes "# any" ∷ [])) ≡ None }
    ensures control_node { ground_rule (devices_of (codes "E1 a b c 0" ∷ [])) ≡ None }
    ensures value { ground_rule (devices_of (codes "R1 a b 0" ∷ [])) ≡ Some Why.NoGround }
    ensures opamp { ground_rule (devices_of (codes ".opamp U1 a b c" ∷ [])) ≡ None }
    ensures no_source { source_rule (devices_of (codes "F1 a 0 V9" ∷ [])) (devices_of (codes "F1 a 0 V9" ∷ []))
        ≡ Some Why.NoSuchSource }
    ensures later_source { source_rule (devices_of (codes "F1 a 0 V9" ∷ codes "V9 a 0" ∷ []))
        (devices_of (codes "F1 a 0 V9" ∷ [])) ≡ None }
{}

/// A voltage that is controlled by another: the equations, the unknowns, and what stands in each equation.
pub fn terms_at_controlled_source()
    ensures unknowns { unknowns_of controlled_source
        ≡ codes "u.a" ∷ codes "u.b" ∷ codes "v.V1" ∷ codes "i.V1" ∷ codes "v.E1" ∷ codes "i.E1" ∷ codes "w.E1" ∷ [] }
    ensures equations { equations_of controlled_source
        ≡ codes "kcl.a" ∷ codes "kcl.b" ∷ codes "kvl.V1" ∷ codes "law.V1" ∷ codes "kvl.E1" ∷ codes "ctl.E1"
        ∷ codes "law.E1" ∷ [] }
    ensures kcl_a { constants_in controlled_source (codes "kcl.a") ≡ 0 ∷ 0 ∷ 0 ∷ 1 ∷ 0 ∷ 0 ∷ 0 ∷ [] }
    ensures kcl_b { constants_in controlled_source (codes "kcl.b") ≡ 0 ∷ 0 ∷ 0 ∷ 0 ∷ 0 ∷ 1 ∷ 0 ∷ [] }
    ensures kvl_v { constants_in controlled_source (codes "kvl.V1") ≡ 65520 ∷ 0 ∷ 1 ∷ 0 ∷ 0 ∷ 0 ∷ 0 ∷ [] }
    ensures law_v { constants_in controlled_source (codes "law.V1") ≡ 0 ∷ 0 ∷ 1 ∷ 0 ∷ 0 ∷ 0 ∷ 0 ∷ [] }
    ensures kvl_e { constants_in controlled_source (codes "kvl.E1") ≡ 0 ∷ 65520 ∷ 0 ∷ 0 ∷ 1 ∷ 0 ∷ 0 ∷ [] }
    ensures ctl_e { constants_in controlled_source (codes "ctl.E1") ≡ 65520 ∷ 0 ∷ 0 ∷ 0 ∷ 0 ∷ 0 ∷ 1 ∷ [] }
    ensures law_e { constants_in controlled_source (codes "law.E1") ≡ 0 ∷ 0 ∷ 0 ∷ 0 ∷ 0 ∷ 0 ∷ 0 ∷ [] }
    ensures symbols_e { symbols_in controlled_source (codes "law.E1")
        ≡ false ∷ false ∷ false ∷ false ∷ true ∷ false ∷ true ∷ [] }
    ensures symbols_v { symbols_in controlled_source (codes "law.V1")
        ≡ false ∷ false ∷ false ∷ false ∷ false ∷ false ∷ false ∷ [] }
{}

/// Opamps, a transformer, and a device with both ends at one node.
pub fn terms_at_examples()
    ensures opamp_unknowns { unknowns_of opamps ≡ codes "u.m" ∷ codes "u.out" ∷ codes "i.U1" ∷ codes "i.U2" ∷ [] }
    ensures opamp_equations { equations_of opamps
        ≡ codes "kcl.m" ∷ codes "kcl.out" ∷ codes "law.U1" ∷ codes "law.U2" ∷ [] }
    ensures opamp_inputs { constants_in opamps (codes "kcl.m") ≡ 0 ∷ 0 ∷ 0 ∷ 0 ∷ [] }
    ensures opamp_out { constants_in opamps (codes "kcl.out") ≡ 0 ∷ 0 ∷ 1 ∷ 0 ∷ [] }
    ensures opamp_law { constants_in opamps (codes "law.U1") ≡ 65520 ∷ 0 ∷ 0 ∷ 0 ∷ [] }
    ensures opamp_cancels { constants_in opamps (codes "law.U2") ≡ 0 ∷ 0 ∷ 0 ∷ 0 ∷ [] }
    ensures transformer_unknowns { unknowns_of (transformer 3)
        ≡ codes "u.a" ∷ codes "u.b" ∷ codes "va.T1" ∷ codes "ia.T1" ∷ codes "vb.T1" ∷ codes "ib.T1" ∷ [] }
    ensures transformer_kcl { constants_in (transformer 3) (codes "kcl.a") ≡ 0 ∷ 0 ∷ 0 ∷ 1 ∷ 0 ∷ 65520 ∷ [] }
    ensures transformer_kvlb { constants_in (transformer 3) (codes "kvlb.T1") ≡ 1 ∷ 65520 ∷ 0 ∷ 0 ∷ 1 ∷ 0 ∷ [] }
    ensures transformer_lawa { constants_in (transformer 3) (codes "lawa.T1") ≡ 0 ∷ 0 ∷ 1 ∷ 0 ∷ 65518 ∷ 0 ∷ [] }
    ensures transformer_lawb { constants_in (transformer 3) (codes "lawb.T1") ≡ 0 ∷ 0 ∷ 0 ∷ 3 ∷ 0 ∷ 1 ∷ [] }
    ensures transformer_0 { constants_in (transformer 0) (codes "lawa.T1") ≡ 0 ∷ 0 ∷ 1 ∷ 0 ∷ 0 ∷ 0 ∷ [] }
    ensures loop_kcl { constants_in loop (codes "kcl.a") ≡ 0 ∷ 0 ∷ 0 ∷ 0 ∷ 1 ∷ [] }
    ensures loop_kvl { constants_in loop (codes "kvl.R1") ≡ 0 ∷ 1 ∷ 0 ∷ 0 ∷ 0 ∷ [] }
    ensures loop_law { symbols_in loop (codes "law.R1") ≡ false ∷ true ∷ true ∷ false ∷ false ∷ [] }
{}

/// Whole texts that are refused.
pub fn refusals_at_examples()
    ensures no_ground { IsRefusal 65521 (codes "R1 a b") (refusal Place.Document Why.NoGround) }
    ensures no_source { IsRefusal 65521 (codes "F1 a 0 V9") (refusal (Place.Line 1) Why.NoSuchSource) }
    ensures unsupported { IsRefusal 65521 (codes "D1 a 0") (refusal (Place.Line 1) Why.Unsupported) }
    ensures shape { IsRefusal 65521 (codes "R1 a") (refusal (Place.Line 1) Why.BadShape) }
    ensures twice { IsRefusal 65521 (two_lines (codes "R1 a 0") (codes "R1 a 0")) (refusal (Place.Line 2) Why.Twice) }
{}

/// A whole text that gives a model: a voltage that is controlled by another.
pub fn model_at_controlled_source()
    ensures { GivesModel 65521 controlled_text controlled_model }
{}

/// A device of each kind: each term stands at one of its equations and unknowns.
pub fn places_at_examples()
    ensures { loses_no_term all_kinds ≡ true }
{}
