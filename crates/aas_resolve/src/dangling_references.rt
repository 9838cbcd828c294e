ghost use Rattle.std.specs.Prelude.{◌≡◌, ◌++◌, [], Bool, List, Option, flat_map, IfOk, OnOk, map};
ghost use Rattle.aas_constraint_rules.specs.Sites.{Own, sites, sites_among, tree_of, trees};
ghost use Rattle.aas_constraints.specs.Walk.{above_of};
ghost use Rattle.aas_resolve.specs.Dangling.{dangling, dangling_among, dangling_at, dangling_at_site};
ghost use Rattle.aas_resolve.specs.Dangling.{dangling_in, dangling_in_submodel};

use crate::referrer::Referrer;
use crate::report::Dangling;
use aas_constraints::step_to;
use aas_model::{Collection, Duplicate, Element, Many, NoMemory, Path, Submodel, Text};
use aas_store::Store;
use std::alloc::Global;

/// The path of a document itself.
fn no_steps(alloc: Global) -> Path
    ensures { result.steps ≡ [] }
{
    Path {
        steps: Many::new(alloc),
    }
}

/// Adds the dangling references of a document or an element in it, without those of the elements below.
fn add_at<R: Referrer, S: Store>(
    found: &mut Many<Dangling>,
    store: &S,
    collection: Collection,
    id: &str,
    path: &Path,
    referrer: &R,
) -> Result<(), NoMemory>
    ensures { OnOk result (found.new ≡ found.old
        ++ dangling_at (S.documents store.now) collection id.now path.now.steps (R.references referrer.now)) }
{
    let alloc = found.alloc();
    let mut keys = Many::new(alloc);
    referrer.add_dangling_keys(store, &mut keys)?;
    for key in keys.as_slice() {
        found.push(Dangling {
            collection,
            id: Text::from_str(alloc, id)?,
            path: path.copy()?,
            key: *key,
        })?;
    }
    Ok(())
}

/// Adds those of the element to which the path leads in a submodel, and of all elements below it, in preorder.
#[cycle(elements)]
fn add_in<S: Store>(
    found: &mut Many<Dangling>,
    store: &S,
    id: &str,
    path: &mut Path,
    element: &Element,
) -> Result<(), NoMemory>
    ensures found { OnOk result
        ((t : Bool) (a : Option Own) (b : List Own)
        → found.new ≡ found.old ++ flat_map (dangling_at_site (S.documents store.now) id.now path.old.steps)
        (sites t a b (tree_of element.now))) }
    ensures path { OnOk result (path.new ≡ path.old) }
{
    add_at(found, store, Collection::Submodels, id, path, element)?;
    add_below(found, store, id, path, &element.kids, Some(element))
}

/// Adds those of the children of an element or of a submodel, and of all elements below them, in preorder.
#[cycle(elements)]
fn add_below<S: Store>(
    found: &mut Many<Dangling>,
    store: &S,
    id: &str,
    path: &mut Path,
    kids: &Many<Element>,
    above: Option<&Element>,
) -> Result<(), NoMemory>
    ensures found { OnOk result
        ((t : Bool) → found.new ≡ found.old ++ flat_map (dangling_at_site (S.documents store.now) id.now path.old.steps)
        (sites_among t (above_of above.entry) [] (trees (map tree_of kids.now)))) }
    ensures path { OnOk result (path.new ≡ path.old) }
{
    for (place, kid) in kids.as_slice().iter().enumerate() {
        path.steps.push(step_to(above, place, kid)?)?;
        add_in(found, store, id, path, kid)?;
        path.steps.remove(path.steps.len() - 1);
    }
    Ok(())
}

/// Adds those of a submodel and of all elements in it.
fn add_submodel<S: Store>(
    found: &mut Many<Dangling>,
    store: &S,
    id: &str,
    submodel: &Submodel,
) -> Result<(), NoMemory>
    ensures { OnOk result (found.new ≡ found.old ++ dangling_in_submodel (S.documents store.now) id.now submodel.now) }
{
    let mut path = no_steps(found.alloc());
    add_at(found, store, Collection::Submodels, id, &path, submodel)?;
    add_below(found, store, id, &mut path, &submodel.kids, None)
}

/// Adds those of a document and of all elements in it.
fn add_document<S: Store>(
    found: &mut Many<Dangling>,
    store: &S,
    collection: Collection,
    id: &str,
) -> Result<(), NoMemory>
    ensures { OnOk result (found.new ≡ found.old ++ dangling_in (S.documents store.now) collection id.now) }
{
    let alloc = found.alloc();
    match collection {
        Collection::Shells => match store.shell(id) {
            Some(shell) => add_at(found, store, collection, id, &no_steps(alloc), shell),
            None => Ok(()),
        },
        Collection::Submodels => match store.submodel(id)? {
            Some(submodel) => add_submodel(found, store, id, &submodel),
            None => Ok(()),
        },
        Collection::Concepts => match store.concept(id) {
            Some(concept) => add_at(found, store, collection, id, &no_steps(alloc), concept),
            None => Ok(()),
        },
    }
}

/// Adds those of all documents of a collection, by their identifiers.
fn add_collection<S: Store>(
    found: &mut Many<Dangling>,
    store: &S,
    collection: Collection,
) -> Result<(), NoMemory>
    ensures { OnOk result (found.new ≡ found.old ++ dangling_among (S.documents store.now) collection) }
{
    let mut after = None;
    while let Some(id) = store.id_after(collection, after) {
        add_document(found, store, collection, id)?;
        after = Some(id);
    }
    Ok(())
}

/// The ModelReferences in the attributes of the store's documents, and of all elements in them, that lead nowhere: by
/// collection, shells, submodels and concept descriptions; by identifier; in a submodel in preorder; at one place in
/// the byte order of members.
///
/// A reference within another one, its `referredSemanticId`, and kept data aren't looked at.
/// Each submodel is copied while it is looked at.
pub fn dangling<S: Store>(alloc: Global, store: &S) -> Result<Many<Dangling>, NoMemory>
    ensures { IfOk result (λ found. found ≡ dangling (S.documents store.now)) }
{
    let mut found = Many::new(alloc);
    add_collection(&mut found, store, Collection::Shells)?;
    add_collection(&mut found, store, Collection::Submodels)?;
    add_collection(&mut found, store, Collection::Concepts)?;
    Ok(found)
}
