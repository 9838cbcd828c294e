// Plans of answers, and the texts that are poured by them.
ghost use Rattle.std.specs.Prelude.{◌≡◌, ◌^◌, [], codes, is_some, length, nat_lt, slice_get, Some, None};
ghost use Rattle.std.specs.Prelude.{if◌then◌else◌, IfOk};
ghost use Rattle.std.specs.List.{join_by};
ghost use Rattle.std.specs.Option.{option_map_or};
ghost use Rattle.aas_out.specs.Adds.{Adds};
ghost use Rattle.aas_out.specs.Told.{Puts};
ghost use Rattle.aas_step.specs.Valid.{AreValid};
ghost use Rattle.aas_answer.specs.Answers.{page_text};
ghost use Rattle.aas_answer.specs.Plans.{entry_text, listing_text, plan_text};

use crate::environments::pour_environment;
use crate::page_text::{pour_begin, text_of};
use crate::pouring::pour_document;
use aas_json_write_members::comma_of;
use aas_model::{Collection, Extent, Level, Many, NoMemory, Text};
use aas_out::{Failed, Out, Pour, Pouring, TextOut, add_text, measure};
use aas_serialization::Chosen;
use aas_store::Store;
use std::alloc::Global;
use std::marker::Model;

/// Which documents an answer tells.
#[derive(Drop)]
pub enum Plan {
    /// Those of a page, or a single one.
    Listing { listing: Listing },
    /// Those of an environment.
    Environment { chosen: Chosen },
}

/// The documents of a page, or a single one.
#[derive(Drop)]
pub struct Listing {
    /// The identifiers of the documents.
    pub ids: Many<Text>,
    /// The cursor of the page behind, if a further document follows.
    pub cursor: Option<Many<u8>>,
    pub collection: Collection,
    /// The first document alone is told, and not as a page.
    pub single: bool,
    /// The level at which submodels are shown.
    pub level: Level,
    /// The extent to which submodels are shown.
    pub extent: Extent,
}

/// Puts the text of the plan. A document that isn't there is told as nothing.
pub fn pour_plan<S: Store, O: Out>(store: &S, plan: &Plan, out: &mut O) -> Result<(), Failed>
    requires { AreValid (S.documents store.now) }
    ensures { Puts (O.told out.old) (O.told out.new) result (plan_text (S.documents store.now) plan.now) }
{
    pour_text(Pouring::Going, store, plan, out).outcome()
}

fn pour_text<S: Store, O: Out>(so_far: Pouring, store: &S, plan: &Plan, out: &mut O) -> Pouring
    requires { AreValid (S.documents store.now) }
    ensures { Adds so_far result (O.told out.old) (O.told out.new) (plan_text (S.documents store.now) plan.now) }
{
    match plan {
        Plan::Listing { listing } => pour_listing(so_far, store, listing, out),
        Plan::Environment { chosen } => pour_environment(so_far, store, chosen, out),
    }
}

/// Puts the text of the page, or of the one document.
fn pour_listing<S: Store, O: Out>(
    so_far: Pouring,
    store: &S,
    listing: &Listing,
    out: &mut O,
) -> Pouring
    requires { AreValid (S.documents store.now) }
    ensures { Adds so_far result (O.told out.old) (O.told out.new) (listing_text (S.documents store.now) listing.now) }
{
    if listing.single {
        pour_single(so_far, store, listing, out)
    } else {
        pour_page(so_far, store, listing, out)
    }
}

/// Puts what is told of the document of the identifier.
fn pour_entry<S: Store, O: Out>(
    so_far: Pouring,
    store: &S,
    listing: &Listing,
    id: &Text,
    out: &mut O,
) -> Pouring
    requires { AreValid (S.documents store.now) }
    ensures { Adds so_far result (O.told out.old) (O.told out.new)
        (entry_text (S.documents store.now) listing.now id.now) }
{
    pour_document(
        so_far,
        store,
        listing.collection,
        id.as_str(),
        listing.level,
        listing.extent,
        out,
    )
}

/// Puts what is told of the first document.
fn pour_single<S: Store, O: Out>(
    so_far: Pouring,
    store: &S,
    listing: &Listing,
    out: &mut O,
) -> Pouring
    requires { AreValid (S.documents store.now) }
    ensures { Adds so_far result (O.told out.old) (O.told out.new)
        (option_map_or (entry_text (S.documents store.now) listing.now) (slice_get listing.now.ids 0) []) }
{
    match listing.ids.get(0) {
        Some(id) => pour_entry(so_far, store, listing, id, out),
        None => so_far,
    }
}

/// Puts the page.
fn pour_page<S: Store, O: Out>(
    so_far: Pouring,
    store: &S,
    listing: &Listing,
    out: &mut O,
) -> Pouring
    requires { AreValid (S.documents store.now) }
    ensures { Adds so_far result (O.told out.old) (O.told out.new)
        (page_text (entry_text (S.documents store.now) listing.now) listing.now.cursor
        (record { entries = listing.now.ids; more = is_some listing.now.cursor })) }
{
    let begun = pour_begin(so_far, &listing.cursor, out);
    let told = pour_entries(begun, store, listing, out);
    add_text(told, "]}", out)
}

/// Puts the entries of the page, with commas between them.
fn pour_entries<S: Store, O: Out>(
    so_far: Pouring,
    store: &S,
    listing: &Listing,
    out: &mut O,
) -> Pouring
    requires { AreValid (S.documents store.now) }
    ensures { Adds so_far result (O.told out.old) (O.told out.new)
        (join_by (entry_text (S.documents store.now) listing.now) (codes ",") listing.now.ids) }
{
    let mut state = so_far;
    for (place, id) in listing.ids.as_slice().iter().enumerate() {
        let comma = add_text(state, comma_of(place > 0), out);
        state = pour_entry(comma, store, listing, id, out);
    }
    state
}

/// The text of a plan over the documents of a store, which are valid.
///
/// Contracts see it as this text.
#[derive(Drop)]
pub(crate) struct PlanText<'a, S: Store> {
    store: &'a S,
    plan: &'a Plan,
}

impl<'a, S: Store> Model for PlanText<'a, S> {
    ghost use Rattle.std.specs.Prelude.{ℕ, List};
    ghost use Rattle.aas_step.specs.Valid.{AreValid};
    ghost use Rattle.aas_answer.specs.Plans.{plan_text};

    ghost Value = { List ℕ };

    ghost view = { λ text. plan_text (S.documents text.store.now) text.plan.now };

    ghost invariant = { λ text. AreValid (S.documents text.store.now) };
}

impl<'a, S: Store> PlanText<'a, S> {
    pub(crate) fn new(store: &'a S, plan: &'a Plan) -> PlanText<'a, S>
        requires { AreValid (S.documents store.now) }
        ensures { result ≡ plan_text (S.documents store.now) plan.now }
    {
        PlanText { store, plan }
    }
}

impl<'a, S: Store> Pour for PlanText<'a, S> {
    ghost text = { λ text. text };

    fn pour<O: Out>(&self, out: &mut O) -> Result<(), Failed> {
        pour_plan(self.store, self.plan, out)
    }
}

/// How many bytes the text of the plan has, or `None` where they are 2^64 or more.
pub fn measure_plan<S: Store>(store: &S, plan: &Plan) -> Option<u64>
    requires { AreValid (S.documents store.now) }
    ensures { let bytes = length (plan_text (S.documents store.now) plan.now) in
        result ≡ (if nat_lt bytes (2 ^ 64) then Some bytes else None) }
{
    measure(&PlanText::new(store, plan))
}

/// The text of the plan, in memory.
pub(crate) fn plan_in_memory<S: Store>(
    alloc: Global,
    store: &S,
    plan: &Plan,
) -> Result<Many<u8>, NoMemory>
    requires { AreValid (S.documents store.now) }
    ensures { IfOk result (λ text. text ≡ plan_text (S.documents store.now) plan.now) }
{
    let mut out = TextOut::new(alloc);
    let state = pour_text(Pouring::Going, store, plan, &mut out);
    text_of(state, out)
}
