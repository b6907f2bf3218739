//! Laws of the definitions.

ghost use Rattle.std.specs.Prelude.{◌≡◌, ℕ, List, map};
ghost use Rattle.vlog_tree.specs.Tree.{FileOf};
ghost use Rattle.vlog_hierarchy.specs.Outlines.{outlines_of, place_of};
ghost use Rattle.vlog_hierarchy.specs.Nodes.{nodes_of};
ghost use Rattle.vlog_elab.specs.Instances.{instances, node_of};

/// The instances with scopes are, one by one, those whose number and nets E12 counts.
pub fn instances_are_nodes()
    ensures { (file : FileOf ℕ) (top : List ℕ)
        → map node_of (instances file top) ≡ nodes_of (outlines_of file.modules) (place_of file.modules top) }
{}
