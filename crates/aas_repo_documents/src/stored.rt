// Documents of the three collections, as the commands see them that put one.
ghost use Rattle.std.specs.Prelude.{◌≡◌, [], ◌∷◌, false, IfOk, IsTrue, OnErr, OnOk};
ghost use Rattle.std.specs.Str.{encode_utf8_all};
ghost use Rattle.aas_command.specs.declared.command.Command as commands;
ghost use Rattle.aas_command.specs.declared.command.Command.{Command};
ghost use Rattle.aas_constraint_laws.specs.Valid.{IsValid, is_whole};
ghost use Rattle.aas_constraint_rules.specs.Faults.{Document, faults_of};
ghost use Rattle.aas_model_names.specs.declared.collection.Collection as collection;
ghost use Rattle.aas_reference.specs.Rules.{first};
ghost use Rattle.aas_step.specs.Causes.{document_causes, first_of, has_too_many, is_absent, is_there};
ghost use Rattle.aas_step.specs.Made.{id_of, with_document};
ghost use Rattle.aas_step.specs.Step.{later_causes};
ghost use Rattle.aas_store.specs.Documents.{Documents};
ghost use Rattle.aas_repo_documents.specs.Decisions.{IsDecision, Makes, Puts};

use crate::count::{ELEMENT_LIMIT, has_more_elements};
use crate::decision::Decision;
use aas_command::Refusal;
use aas_constraints::{check_concept, check_shell, check_submodel};
use aas_model::{Collection, Concept, Fault, NoMemory, Shell, Submodel};
use aas_step::valid_submodels_are_storable;
use aas_store::Store;
use std::alloc::Global;

/// A document that a command brings.
pub trait Stored: Drop + Sized {
    /// Which document it is.
    ghost document: { Self → Document };

    /// The collection that such documents are in.
    ghost held_in: { collection.Collection };

    /// The command that creates it, and the one that puts it in the place of another.
    ghost creating: { Self → Command };

    ghost replacing: { Self → Command };

    fn collection(&self) -> Collection
        ensures { result ≡ held_in };

    fn id(&self) -> &str
        ensures { result.now ≡ encode_utf8_all (id_of (document self.now)) };

    /// Its first fault.
    fn check(&self, alloc: Global) -> Result<Option<Fault>, NoMemory>
        ensures { IfOk result (λ fault. fault ≡ first (faults_of (document self.now))) };

    /// Whether it has more elements than it may have.
    fn is_too_large(&self) -> bool
        ensures { result ≡ has_too_many (document self.now) };

    fn put_into<S: Store>(self, store: &mut S) -> Result<(), NoMemory>
        requires valid { IsValid (document self) }
        requires few { has_too_many (document self) ≡ false }
        ensures ok { OnOk result (S.documents store.new ≡ with_document (S.documents store.old) (document self)) }
        ensures err { OnErr result (S.documents store.new ≡ S.documents store.old) };

    ghost creates: { (d : Documents) (x : Self)
        → Puts d (creating x) (is_there held_in (id_of (document x)) d) (document x) };

    ghost replaces: { (d : Documents) (x : Self)
        → Puts d (replacing x) (is_absent held_in (id_of (document x)) d) (document x) };
}

impl Stored for Shell {
    ghost use Rattle.std.specs.Prelude.{refl};
    ghost use Rattle.aas_command.specs.declared.command.Command.TheVariants.{CreateShell, ReplaceShell};
    ghost use Rattle.aas_constraint_rules.specs.Faults.{shell};
    ghost use Rattle.aas_model_names.specs.declared.collection.Collection.TheVariants.{Shells};

    ghost document = { shell };

    ghost held_in = { Shells };

    ghost creating = { CreateShell };

    ghost replacing = { ReplaceShell };

    ghost creates = { λ d x. record { causes_are = refl; made = refl; left_are = refl } };

    ghost replaces = { λ d x. record { causes_are = refl; made = refl; left_are = refl } };

    fn collection(&self) -> Collection {
        Collection::Shells
    }

    fn id(&self) -> &str {
        self.head.id.as_str()
    }

    fn check(&self, alloc: Global) -> Result<Option<Fault>, NoMemory> {
        check_shell(alloc, self)
    }

    fn is_too_large(&self) -> bool {
        false
    }

    fn put_into<S: Store>(self, store: &mut S) -> Result<(), NoMemory> {
        store.put_shell(self)
    }
}

impl Stored for Submodel {
    ghost use Rattle.std.specs.Prelude.{refl};
    ghost use Rattle.aas_command.specs.declared.command.Command.TheVariants.{CreateSubmodel, ReplaceSubmodel};
    ghost use Rattle.aas_constraint_rules.specs.Faults.{submodel};
    ghost use Rattle.aas_model_names.specs.declared.collection.Collection.TheVariants.{Submodels};

    ghost document = { submodel };

    ghost held_in = { Submodels };

    ghost creating = { CreateSubmodel };

    ghost replacing = { ReplaceSubmodel };

    ghost creates = { λ d x. record { causes_are = refl; made = refl; left_are = refl } };

    ghost replaces = { λ d x. record { causes_are = refl; made = refl; left_are = refl } };

    fn collection(&self) -> Collection {
        Collection::Submodels
    }

    fn id(&self) -> &str {
        self.head.id.as_str()
    }

    fn check(&self, alloc: Global) -> Result<Option<Fault>, NoMemory> {
        check_submodel(alloc, self)
    }

    fn is_too_large(&self) -> bool {
        has_more_elements(self, ELEMENT_LIMIT)
    }

    fn put_into<S: Store>(self, store: &mut S) -> Result<(), NoMemory> {
        valid_submodels_are_storable();
        store.put_submodel(self)
    }
}

impl Stored for Concept {
    ghost use Rattle.std.specs.Prelude.{refl};
    ghost use Rattle.aas_command.specs.declared.command.Command.TheVariants.{CreateConcept, ReplaceConcept};
    ghost use Rattle.aas_constraint_rules.specs.Faults.{concept};
    ghost use Rattle.aas_model_names.specs.declared.collection.Collection.TheVariants.{Concepts};

    ghost document = { concept };

    ghost held_in = { Concepts };

    ghost creating = { CreateConcept };

    ghost replacing = { ReplaceConcept };

    ghost creates = { λ d x. record { causes_are = refl; made = refl; left_are = refl } };

    ghost replaces = { λ d x. record { causes_are = refl; made = refl; left_are = refl } };

    fn collection(&self) -> Collection {
        Collection::Concepts
    }

    fn id(&self) -> &str {
        self.head.id.as_str()
    }

    fn check(&self, alloc: Global) -> Result<Option<Fault>, NoMemory> {
        check_concept(alloc, self)
    }

    fn is_too_large(&self) -> bool {
        false
    }

    fn put_into<S: Store>(self, store: &mut S) -> Result<(), NoMemory> {
        store.put_concept(self)
    }
}

/// Puts the one document that a command makes, unless a later cause refuses the command.
pub fn put<S: Store, D: Stored>(
    alloc: Global,
    store: &mut S,
    document: D,
    has_room: bool,
) -> Decision
    requires { IsTrue (is_whole (D.document document)) }
    ensures { (c : commands.Command) → Makes (S.documents store.old) c (D.document document) →
        IsDecision has_room (S.documents store.old) c (S.documents store.new) result }
{
    match later_cause(alloc, &document, has_room) {
        Ok(None) => match document.put_into(store) {
            Ok(()) => Decision::Made,
            Err(NoMemory) => Decision::NoMemory,
        },
        Ok(Some(refusal)) => Decision::Refused(refusal),
        Err(NoMemory) => Decision::NoMemory,
    }
}

/// The first fault of the new document, or that it has too many elements, or that there is no room.
fn later_cause<D: Stored>(
    alloc: Global,
    document: &D,
    has_room: bool,
) -> Result<Option<Refusal>, NoMemory>
    ensures { IfOk result (λ cause. cause ≡ first_of (later_causes has_room (D.document document.now ∷ []))) }
{
    if let Some(refusal) = document_cause(alloc, document)? {
        return Ok(Some(refusal));
    }
    if !has_room {
        return Ok(Some(Refusal::StorageFull));
    }
    Ok(None)
}

/// The first fault of a new document, or that it has too many elements.
pub fn document_cause<D: Stored>(alloc: Global, document: &D) -> Result<Option<Refusal>, NoMemory>
    ensures { IfOk result (λ cause. cause ≡ first_of (document_causes (D.document document.now))) }
{
    if let Some(fault) = document.check(alloc)? {
        return Ok(Some(Refusal::from(fault)));
    }
    if document.is_too_large() {
        return Ok(Some(Refusal::TooMany));
    }
    Ok(None)
}
