//! What holds of expressions without a fault, as contracts of functions that do nothing.

ghost use Rattle.std.specs.Prelude.{◌≡◌, ◌<◌, ◌^◌, ℕ, true, [], Some};
ghost use Rattle.vlog_tree.specs.vidi_bits.Number.{IsWidth};
ghost use Rattle.vlog_tree.specs.Tree.{ExprOf, TargetOf};
ghost use Rattle.vlog_size.specs.declared.scope.Const.{Const};
ghost use Rattle.vlog_size.specs.Literal.{is_lawful};
ghost use Rattle.vlog_size.specs.declared.scope.Scope.{Scope};
ghost use Rattle.vlog_size.specs.Names.{Readable, readable_of, fixed, checked};
ghost use Rattle.vlog_size.specs.Names.{is_lawful_const, are_lawful_params, is_lawful_readable, is_lawful_scope};
ghost use Rattle.vlog_size.specs.Size.{sizes_of, sizes_of_target, faults, constant_of, assigned_number};

/// Where the parameters are lawful, an expression without a fault in a constant position has a
/// lawful constant, and a number that fits where it is assigned to some bits.
pub fn constants_are_lawful()
    ensures own { (r : Readable) (e : ExprOf ℕ) → are_lawful_params r.constants ≡ true → faults (sizes_of (fixed r) e) ≡ []
        → (c : Const) × (constant_of (sizes_of (fixed r) e) ≡ Some c) × (is_lawful_const c ≡ true) }
    ensures assigned { (r : Readable) (e : ExprOf ℕ) (w : ℕ) → IsWidth w → are_lawful_params r.constants ≡ true
        → faults (sizes_of (fixed r) e) ≡ [] → (n : ℕ) × (assigned_number w (sizes_of (fixed r) e) ≡ Some n) × (n < 2 ^ w) }
{}

/// In a lawful scope it makes no difference whether names are checked: what is said of expressions
/// and targets is the same.
pub fn lawful_scopes_pass_checks()
    ensures scopes { (s : Scope) → is_lawful_scope s ≡ true → is_lawful_readable (readable_of s) ≡ true }
    ensures expressions { (r : Readable) (e : ExprOf ℕ) → is_lawful_readable r ≡ true → sizes_of (checked r) e ≡ sizes_of r e }
    ensures targets { (r : Readable) (t : TargetOf ℕ) → is_lawful_readable r ≡ true
        → sizes_of_target (checked r) t ≡ sizes_of_target r t }
{}

/// Where the scope is lawful, an expression or a target without a fault has a lawful width.
pub fn widths_are_lawful()
    ensures expressions { (r : Readable) (e : ExprOf ℕ) → is_lawful_readable r ≡ true → faults (sizes_of r e) ≡ []
        → is_lawful (sizes_of r e).width ≡ true }
    ensures targets { (r : Readable) (t : TargetOf ℕ) → is_lawful_readable r ≡ true → faults (sizes_of_target r t) ≡ []
        → is_lawful (sizes_of_target r t).width ≡ true }
{}
