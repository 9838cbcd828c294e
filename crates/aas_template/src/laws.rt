ghost use Rattle.std.specs.Prelude.{◌≡◌, false};
ghost use Rattle.std.specs.List.{All};
ghost use Rattle.aas_constraint_rules.specs.Sites.{is_list, own_of};
ghost use Rattle.aas_path_trees.specs.Children.{kids_of};
ghost use Rattle.aas_path_trees.specs.Places.{Differ};
ghost use Rattle.aas_template.specs.Laws.{ConformToThemselves, DifferBelow};

use aas_model::Element;

/// A submodel without faults, as each valid one is, conforms to itself where no list has two children.
pub fn submodels_conform_to_themselves()
    ensures { ConformToThemselves }
{}

/// Siblings differ below each child of the element too.
pub(crate) fn siblings_differ_below(element: &Element)
    requires { DifferBelow element.now }
    ensures { All DifferBelow (kids_of element.now) }
{}

/// The children of the element, which is no list, differ.
pub(crate) fn children_differ(element: &Element)
    requires below { DifferBelow element.now }
    requires named { is_list (own_of element.now).payload ≡ false }
    ensures { Differ (kids_of element.now) }
{}
