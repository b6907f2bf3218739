//! What holds of instances in which nothing is found, as the contract of a function that does nothing.

ghost use Rattle.std.specs.Prelude.{◌≡◌, ℕ, List, [], true};
ghost use Rattle.std.specs.List.{flat_map};
ghost use Rattle.vlog_tree.specs.Tree.{ConnOf, ModuleOf};
ghost use Rattle.vlog_size.specs.Names.{Readable, are_lawful_params, is_lawful_scope};
ghost use Rattle.vlog_scope.specs.declared.fault.FaultKind.TheVariants.{Constant, Width};
ghost use Rattle.vlog_scope.specs.Scope.{scope_of, readable_at};
ghost use Rattle.vlog_size.specs.declared.scope.Scope.{Scope};
ghost use Rattle.vlog_scope.specs.Faults.{override_faults, const_faults, width_faults};

/// An instance in which nothing is found has a lawful scope, where its parent's parameters are lawful
/// and nothing is found in its connections of parameters; and in a lawful scope the parameters that
/// are declared at any place are lawful.
pub fn faultless_scopes_are_lawful()
    ensures scopes { (r : Readable) (conns : List (ConnOf ℕ)) (m : ModuleOf ℕ) → are_lawful_params r.constants ≡ true
        → flat_map (override_faults Constant r) conns ≡ [] → flat_map (override_faults Width r) conns ≡ []
        → const_faults m (scope_of r conns m) ≡ [] → width_faults m (scope_of r conns m) ≡ []
        → is_lawful_scope (scope_of r conns m) ≡ true }
    ensures parameters { (s : Scope) (k : ℕ) → is_lawful_scope s ≡ true → are_lawful_params (readable_at s k).constants ≡ true }
{}
