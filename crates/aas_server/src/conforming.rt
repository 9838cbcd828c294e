// The answer of the command `conform`.
ghost use Rattle.std.specs.Prelude.{◌≡◌, ◌≢◌, [], ◌∷◌, IfErr, IfOk, Some, None};
ghost use Rattle.std.specs.Str.{encode_utf8_all};
ghost use Rattle.aas_constraint_rules.specs.Faults.{is_template};
ghost use Rattle.aas_page.specs.Segment.{IsIdentifierCode};
ghost use Rattle.aas_path_trees.specs.Places.{SiblingsDiffer};
ghost use Rattle.aas_server.specs.Answer.{done};
ghost use Rattle.aas_server.specs.Conforming.{IsConformAnswer, IsUnfit, StandsForNone, compared_answer, conform_text};
ghost use Rattle.aas_server.specs.Conforming.{not_a_template, reason_name, submodel_at};
ghost use Rattle.aas_step.specs.Valid.{AreValid};

use crate::console::{end_refused, end_with};
use crate::status::Status;
use crate::telling::Report;
use aas_command::{Absent, Refusal};
use aas_constraint_laws::valid_siblings_differ;
use aas_model::{ModellingKind, NoMemory, Submodel, Text};
use aas_outside::{Keeper, Link};
use aas_page::id_from_base64url;
use aas_path::print_fault_path;
use aas_repo::Repo;
use aas_store::Store;
use aas_template::{Difference, Reason, conforms};
use std::alloc::Global;

/// Whether a submodel conforms to a template. Each of the two words stands for an identifier.
#[derive(Clone, Copy)]
pub(crate) struct Conform<'a> {
    pub(crate) template: &'a Text,
    pub(crate) instance: &'a Text,
}

impl Report for Conform<'_> {
    ghost answers = { λ words d answer. IsConformAnswer words.template.now words.instance.now d answer };

    ghost others = { 7 ∷ [] };

    fn give<S: Store, K: Keeper, C: Link>(
        &self,
        alloc: Global,
        repo: &Repo<S, K>,
        console: &mut C,
    ) -> Status {
        match compared_text(alloc, repo.store(), self.template, self.instance) {
            Ok(text) => end_with(console, &text, Status::Done),
            Err(Unfit::Refused(refusal)) => end_refused(alloc, console, &refusal),
            Err(Unfit::NotTemplate) => {
                end_with(
                    console,
                    b"aasd: refused 24 not a template\n",
                    Status::Refused,
                )
            }
        }
    }
}

fn reason_name(reason: Reason) -> &'static str
    ensures { result.now ≡ reason_name reason }
{
    match reason {
        Reason::KindDiffers => "kind",
        Reason::TypeDiffers => "type",
        Reason::SemanticDiffers => "semanticId",
        Reason::CountDiffers => "cardinality",
    }
}

fn conform_text(alloc: Global, found: &Option<Difference>) -> Result<Vec<u8>, NoMemory>
    ensures { IfOk result (λ text. text.items ≡ conform_text found.now) }
{
    let Some(difference) = found else {
        return Ok(Vec::from_slice(alloc, b"conforms\n")?);
    };
    let mut text = Vec::from_slice(alloc, b"differs at ")?;
    print_fault_path(&difference.path, &mut text)?;
    text.extend_from_slice(b": ")?;
    text.extend_from_slice(reason_name(difference.reason).as_bytes())?;
    text.extend_from_slice(b"\n")?;
    Ok(text)
}

/// Why the two aren't compared.
#[derive(Drop)]
enum Unfit {
    Refused(Refusal),
    /// The first submodel isn't of kind Template.
    NotTemplate,
}

impl From<Refusal> for Unfit {
    ghost use Rattle.aas_server.specs.declared.conforming.Unfit.TheVariants as unfit;

    ghost from_gives = { λ refusal given. given ≡ unfit.Refused refusal };

    fn from(refusal: Refusal) -> Unfit {
        Unfit::Refused(refusal)
    }
}

impl From<NoMemory> for Unfit {
    ghost use Rattle.aas_command.specs.declared.refusal.Refusal.TheVariants as refusal;
    ghost use Rattle.aas_server.specs.declared.conforming.Unfit.TheVariants as unfit;

    ghost from_gives = { λ _ given. given ≡ unfit.Refused refusal.NoMemory };

    fn from(_: NoMemory) -> Unfit {
        Unfit::Refused(Refusal::NoMemory)
    }
}

/// The identifier for which the word stands, as a segment does that isn't percent-coded.
fn id_from_word(alloc: Global, word: &Text) -> Result<Text, Refusal>
    ensures ok { IfOk result (λ id. IsIdentifierCode (encode_utf8_all word.now) id) }
    ensures bad { IfErr result (λ refusal.
        refusal ≢ Refusal.NoMemory → (refusal ≡ Refusal.BadIdentifier) × StandsForNone word.now) }
{
    match id_from_base64url(alloc, word.as_str().as_bytes())? {
        Some(id) => Ok(id),
        None => Err(Refusal::BadIdentifier),
    }
}

fn submodel<S: Store>(store: &S, id: &Text) -> Result<Submodel, Refusal>
    ensures ok { IfOk result (λ submodel. submodel_at (S.documents store.now) id.now ≡ Some submodel) }
    ensures absent { IfErr result (λ refusal. refusal ≢ Refusal.NoMemory →
        (refusal ≡ Refusal.NotFound Absent.Submodel) × (submodel_at (S.documents store.now) id.now ≡ None)) }
{
    match store.submodel(id.as_str())? {
        Some(submodel) => Ok(submodel),
        None => Err(Refusal::NotFound {
            what: Absent::Submodel,
        }),
    }
}

fn is_template(kind: Option<ModellingKind>) -> bool
    ensures { result ≡ is_template kind }
{
    matches!(kind, Some(ModellingKind::Template))
}

/// In what the submodel of the second word differs from the template of the first,
/// as a line, or why they aren't compared.
fn compared_text<S: Store>(
    alloc: Global,
    store: &S,
    template: &Text,
    instance: &Text,
) -> Result<Vec<u8>, Unfit>
    requires { AreValid (S.documents store.now) }
    ensures done { IfOk result (λ text.
        IsConformAnswer template.now instance.now (S.documents store.now) (done text.items)) }
    ensures unfit { IfErr result (IsUnfit template.now instance.now (S.documents store.now)) }
{
    valid_siblings_differ();
    let template_id = id_from_word(alloc, template)?;
    let instance_id = id_from_word(alloc, instance)?;
    let wanted = submodel(store, &template_id)?;
    let given = match submodel(store, &instance_id) {
        Ok(given) => given,
        Err(refusal) => {
            drop(wanted);
            return Err(Unfit::Refused(refusal));
        }
    };
    let text = comparison(alloc, &wanted, &given);
    drop(wanted);
    drop(given);
    text
}

/// In what a submodel differs from a template, as a line, or that it is compared with none.
fn comparison(alloc: Global, template: &Submodel, instance: &Submodel) -> Result<Vec<u8>, Unfit>
    requires { SiblingsDiffer template.now }
    ensures done { IfOk result (λ text. done text.items ≡ compared_answer (Some template.now) (Some instance.now)) }
    ensures unfit { IfErr result (λ unfit. unfit ≢ Unfit.Refused Refusal.NoMemory →
        (unfit ≡ Unfit.NotTemplate) × (not_a_template ≡ compared_answer (Some template.now) (Some instance.now))) }
{
    if !is_template(template.kind) {
        return Err(Unfit::NotTemplate);
    }
    let found = conforms(alloc, template, instance)?;
    Ok(conform_text(alloc, &found)?)
}
