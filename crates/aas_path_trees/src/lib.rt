//! What is said of the trees of elements: which element a path leads to, which paths can be written, what a change of a
//! tree makes of it, and laws of these. It has nothing to run: a law stands on a function that does nothing.
//!
//! Paths as text, and the calls that follow a path and change a tree, stand in `aas_path`.
//!
//! Proved: where paths lead; each element of a tree whose siblings differ has one path. By the law functions in
//! `src/`.

#![tactic(auto)]

ghost use Rattle.aas_path_trees.specs.Laws.{EachHasOnePath, EachLeadsSoFar};

/// Where siblings differ, as they do in a valid submodel, each element has one path.
pub fn each_has_one_path()
    ensures { EachHasOnePath }
{}

/// A path leads to an element as far as the depth at which it is found says, and no further.
pub fn each_leads_so_far()
    ensures { EachLeadsSoFar }
{}
