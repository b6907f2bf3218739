//! What holds where no name stands twice, as a contract of a function that does nothing.

ghost use Rattle.std.specs.Prelude.{◌≡◌, ℕ, []};
ghost use Rattle.std.specs.List.{AllByRecursion};
ghost use Rattle.vlog_tree.specs.Tree.{ModuleOf, FileOf};
ghost use Rattle.vlog_names.specs.Entries.{declared, modules_of};
ghost use Rattle.vlog_names.specs.Twice.{twice_names};
ghost use Rattle.vlog_names.specs.Different.{Differ};

/// Where E3 finds nothing, the modules of the file have different names, and so have the
/// parameters, ports, nets, memories, instances and local parameters of each module.
pub fn names_are_different()
    ensures modules { (file : FileOf ℕ) → twice_names file ≡ [] → Differ (modules_of file) }
    ensures names { (file : FileOf ℕ) → twice_names file ≡ [] → AllByRecursion (λ (m : ModuleOf ℕ). Differ (declared m)) file.modules }
{}
