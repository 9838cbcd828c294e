ghost use Rattle.std.specs.Prelude.{◌≡◌, ℕ, List, Option, MatchResult};
ghost use Rattle.serde_json.specs.Data.{object};
ghost use Rattle.serde_json.specs.View.{view, members_view};
ghost use Rattle.aas_json_spelling.specs.Values.{IsOrdered, HasOrder};
ghost use Rattle.aas_model.specs.Payload.{kind_of};
ghost use Rattle.aas_model_names.specs.declared.kind.Kind.TheVariants as kind;
ghost use Rattle.aas_model.specs.declared.parts.LangText.{LangText};
ghost use Rattle.aas_model.specs.declared.reference.Reference.{Reference};
ghost use Rattle.aas_model.specs.declared.payload.Payload.TheVariants as p;
ghost use Rattle.aas_value.specs.Parts.{Part};
ghost use Rattle.aas_value_patch.specs.Steps.{Stepped, TakesContent, RefusesContent};

use crate::fault::Misfit;
use crate::members::{has_only, has_only_two};
use crate::references::{reference_or_null_from, reference_under};
use crate::sent::Sent;
use crate::slots::{languages_from, single_from, single_under, text_or_null_under, text_under};
use crate::step::Step;
use aas_json_table::name;
use aas_model::{Payload, Reference, Text, ValueType, copy_option};
use serde_json::{Map, Value};
use std::alloc::Global;

/// A Property takes the whole value.
pub(crate) fn property_step<'v>(
    alloc: Global,
    value_type: ValueType,
    value_id: &Option<Reference>,
    sent: &'v Value,
) -> Result<Step<'v>, Misfit>
    ensures { (old : Option (List ℕ)) (xs : List Part)
        → Stepped result (p.Property value_type old value_id.now) xs (view sent.now) }
{
    let value = single_from(alloc, value_type, sent)?;
    let kept = copy_option(value_id)?;
    Ok(Step {
        payload: Payload::Property {
            value_type,
            value,
            value_id: kept,
        },
        kids: Sent::Nothing,
    })
}

/// A Range takes the members `max` and `min`.
fn range_in<'v>(
    alloc: Global,
    value_type: ValueType,
    min: &Option<Text>,
    max: &Option<Text>,
    members: &'v Map<String, Value>,
) -> Result<Step<'v>, Misfit>
    ensures { (xs : List Part) → HasOrder (members_view members.now.entries)
        → Stepped result (p.Range value_type min.now max.now) xs (object (members_view members.now.entries)) }
{
    let max = single_under(alloc, value_type, max, members, name::MAX)?;
    let min = single_under(alloc, value_type, min, members, name::MIN)?;
    if !has_only_two(members, name::MAX, name::MIN) {
        return Err(Misfit::Shape);
    }
    Ok(Step {
        payload: Payload::Range {
            value_type,
            min,
            max,
        },
        kids: Sent::Nothing,
    })
}

/// A MultiLanguageProperty takes the whole array.
pub(crate) fn languages_step<'v>(
    alloc: Global,
    value_id: &Option<Reference>,
    sent: &'v Value,
) -> Result<Step<'v>, Misfit>
    ensures { (old : List LangText) (xs : List Part)
        → Stepped result (p.MultiLanguageProperty old value_id.now) xs (view sent.now) }
{
    let value = languages_from(alloc, sent)?;
    Ok(Step {
        payload: Payload::MultiLanguageProperty {
            value,
            value_id: copy_option(value_id)?,
        },
        kids: Sent::Nothing,
    })
}

/// A ReferenceElement takes the whole reference, or null.
pub(crate) fn reference_step<'v>(alloc: Global, sent: &'v Value) -> Result<Step<'v>, Misfit>
    ensures { (old : Option Reference) (xs : List Part) → IsOrdered (view sent.now)
        → Stepped result (p.ReferenceElement old) xs (view sent.now) }
{
    let value = reference_or_null_from(alloc, sent)?;
    Ok(Step {
        payload: Payload::ReferenceElement { value },
        kids: Sent::Nothing,
    })
}

/// The content type and the value that a File and a Blob take from the members `contentType` and `value`.
fn content_in(
    alloc: Global,
    content_type: &Option<Text>,
    value: &Option<Text>,
    members: &Map<String, Value>,
) -> Result<(Option<Text>, Option<Text>), Misfit>
    ensures { HasOrder (members_view members.now.entries) → MatchResult result
        (λ found. TakesContent content_type.now value.now (object (members_view members.now.entries)) found.0 found.1)
        (RefusesContent content_type.now value.now (object (members_view members.now.entries))) }
{
    let content_type = text_under(alloc, content_type, members, name::CONTENT_TYPE)?;
    let value = text_or_null_under(alloc, value, members, name::VALUE)?;
    if !has_only_two(members, name::CONTENT_TYPE, name::VALUE) {
        return Err(Misfit::Shape);
    }
    Ok((content_type, value))
}

/// A RelationshipElement takes the members `first` and `second`.
fn relationship_in<'v>(
    alloc: Global,
    first: &Option<Reference>,
    second: &Option<Reference>,
    members: &'v Map<String, Value>,
) -> Result<Step<'v>, Misfit>
    ensures { (xs : List Part) → HasOrder (members_view members.now.entries)
        → Stepped result (p.RelationshipElement first.now second.now) xs (object (members_view members.now.entries)) }
{
    let first = reference_under(alloc, first, members, name::FIRST)?;
    let second = reference_under(alloc, second, members, name::SECOND)?;
    if !has_only_two(members, name::FIRST, name::SECOND) {
        return Err(Misfit::Shape);
    }
    Ok(Step {
        payload: Payload::RelationshipElement { first, second },
        kids: Sent::Nothing,
    })
}

/// A BasicEventElement takes the member `observed`.
fn event_in<'v>(
    alloc: Global,
    event: &Payload,
    members: &'v Map<String, Value>,
) -> Result<Step<'v>, Misfit>
    ensures { (xs : List Part) → kind_of event.now ≡ kind.BasicEventElement
        → HasOrder (members_view members.now.entries)
        → Stepped result event.now xs (object (members_view members.now.entries)) }
{
    let Payload::BasicEventElement {
        observed,
        direction,
        state,
        message_topic,
        message_broker,
        last_update,
        min_interval,
        max_interval,
    } = event
    else {
        return Err(Misfit::Shape);
    };
    let observed = reference_under(alloc, observed, members, name::OBSERVED)?;
    if !has_only(members, name::OBSERVED) {
        return Err(Misfit::Shape);
    }
    Ok(Step {
        payload: Payload::BasicEventElement {
            observed,
            direction: *direction,
            state: *state,
            message_topic: copy_option(message_topic)?,
            message_broker: copy_option(message_broker)?,
            last_update: copy_option(last_update)?,
            min_interval: copy_option(min_interval)?,
            max_interval: copy_option(max_interval)?,
        },
        kids: Sent::Nothing,
    })
}

// ---- the same of any value: all but an object has the wrong shape

/// What a Range takes of a value.
pub(crate) fn range_step<'v>(
    alloc: Global,
    value_type: ValueType,
    min: &Option<Text>,
    max: &Option<Text>,
    sent: &'v Value,
) -> Result<Step<'v>, Misfit>
    ensures { (xs : List Part) → IsOrdered (view sent.now)
        → Stepped result (p.Range value_type min.now max.now) xs (view sent.now) }
{
    match sent {
        Value::Object(members) => range_in(alloc, value_type, min, max, members),
        _ => Err(Misfit::Shape),
    }
}

/// What a File and a Blob take of a value.
fn content_from(
    alloc: Global,
    content_type: &Option<Text>,
    value: &Option<Text>,
    sent: &Value,
) -> Result<(Option<Text>, Option<Text>), Misfit>
    ensures { IsOrdered (view sent.now) → MatchResult result
        (λ found. TakesContent content_type.now value.now (view sent.now) found.0 found.1)
        (RefusesContent content_type.now value.now (view sent.now)) }
{
    match sent {
        Value::Object(members) => content_in(alloc, content_type, value, members),
        _ => Err(Misfit::Shape),
    }
}

/// What a File takes of a value.
pub(crate) fn file_step<'v>(
    alloc: Global,
    content_type: &Option<Text>,
    value: &Option<Text>,
    sent: &'v Value,
) -> Result<Step<'v>, Misfit>
    ensures { (xs : List Part) → IsOrdered (view sent.now)
        → Stepped result (p.File content_type.now value.now) xs (view sent.now) }
{
    let (content_type, value) = content_from(alloc, content_type, value, sent)?;
    Ok(Step {
        payload: Payload::File {
            content_type,
            value,
        },
        kids: Sent::Nothing,
    })
}

/// What a Blob takes of a value.
pub(crate) fn blob_step<'v>(
    alloc: Global,
    content_type: &Option<Text>,
    value: &Option<Text>,
    sent: &'v Value,
) -> Result<Step<'v>, Misfit>
    ensures { (xs : List Part) → IsOrdered (view sent.now)
        → Stepped result (p.Blob content_type.now value.now) xs (view sent.now) }
{
    let (content_type, value) = content_from(alloc, content_type, value, sent)?;
    Ok(Step {
        payload: Payload::Blob {
            content_type,
            value,
        },
        kids: Sent::Nothing,
    })
}

/// What a RelationshipElement takes of a value.
pub(crate) fn relationship_step<'v>(
    alloc: Global,
    first: &Option<Reference>,
    second: &Option<Reference>,
    sent: &'v Value,
) -> Result<Step<'v>, Misfit>
    ensures { (xs : List Part) → IsOrdered (view sent.now)
        → Stepped result (p.RelationshipElement first.now second.now) xs (view sent.now) }
{
    match sent {
        Value::Object(members) => relationship_in(alloc, first, second, members),
        _ => Err(Misfit::Shape),
    }
}

/// What a BasicEventElement takes of a value.
pub(crate) fn event_step<'v>(
    alloc: Global,
    event: &Payload,
    sent: &'v Value,
) -> Result<Step<'v>, Misfit>
    ensures { (xs : List Part) → kind_of event.now ≡ kind.BasicEventElement → IsOrdered (view sent.now)
        → Stepped result (event.now) xs (view sent.now) }
{
    match sent {
        Value::Object(members) => event_in(alloc, event, members),
        _ => Err(Misfit::Shape),
    }
}
