//! Laws of the definitions, as contracts of functions that do nothing.

ghost use Rattle.std.specs.Prelude.{◌≡◌, true, false, [], ◌∷◌};
ghost use Rattle.net_design.specs.declared.values.Target.TheVariants.{Net};
ghost use Rattle.net_design.specs.Updates.{update};
ghost use Rattle.vlog_driver.specs.Items.{whole, read};
ghost use Rattle.vlog_names.specs.Ports.{has_output};
ghost use Rattle.vlog_driver.specs.Settled.{is_held, inputs_of};
ghost use Rattle.vlog_driver.specs.Next.{clocked_updates, initial_number};
ghost use Rattle.vlog_driver.specs.Own.{AssignedAlike, SettledAlike, UpdatedAlike};
ghost use Rattle.vlog_driver.specs.MeaningExamples.{leaf, top, top_scope, leaf_scope, net, numbers, at_top, at_leaf, assigned, id, bit, z_of_w};

/// What an item of an instance asks, and what its blocks change, depends on the numbers of the instance's own nets and words alone: it is
/// the same over a list in which others follow.
pub fn own_numbers_decide()
    ensures assigned { AssignedAlike }
    ensures settled { SettledAlike }
    ensures updated { UpdatedAlike }
{}

/// The definitions on a file of two modules and a top with two instances.
pub fn meaning_shown()
    ensures top_nets { top_scope.nets ≡ net 99 1 ∷ net 120 2 ∷ net 122 2 ∷ [] }
    ensures leaf_nets { leaf_scope.nets ≡ net 99 1 ∷ net 97 1 ∷ net 113 1 ∷ net 121 1 ∷ [] }
    ensures inputs { inputs_of top ≡ (99 ∷ []) ∷ (120 ∷ []) ∷ [] }
    ensures numbers_top { at_top ≡ numbers (0 ∷ 2 ∷ 1 ∷ []) }
    ensures numbers_u { at_leaf 117 ≡ numbers (0 ∷ 0 ∷ 1 ∷ 1 ∷ []) }
    ensures numbers_w { at_leaf 119 ≡ numbers (0 ∷ 1 ∷ 1 ∷ 0 ∷ []) }
    ensures output { has_output leaf (121 ∷ []) ≡ true }
    ensures no_output { has_output leaf (97 ∷ []) ≡ false }
    ensures input_joined { assigned leaf_scope (numbers (0 ∷ 0 ∷ 1 ∷ 0 ∷ [])) (whole (id 97)) top_scope at_top (bit 120 49)
        ≡ numbers (0 ∷ 1 ∷ 1 ∷ 0 ∷ []) }
    ensures output_joined { assigned top_scope (numbers (0 ∷ 2 ∷ 3 ∷ [])) z_of_w leaf_scope (at_leaf 119) (read (id 121)) ≡ at_top }
    ensures held { is_held leaf leaf_scope (113 ∷ []) 2 0 ≡ true }
    ensures not_held { is_held leaf leaf_scope (121 ∷ []) 3 0 ≡ false }
    ensures clocked { clocked_updates leaf leaf_scope (at_leaf 119) ≡ update (Net 2) 0 1 0 ∷ [] }
    ensures initial { initial_number leaf leaf_scope (113 ∷ []) ≡ 1 }
{}
