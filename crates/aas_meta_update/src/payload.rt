ghost use Rattle.std.specs.Prelude.{◌≡◌, ◌↔◌, IfOk, IsTrue};
ghost use Rattle.aas_meta_update.specs.WithMetadata.{AreAlike, value_id_of, value_type_of, with_observed, with_shown};

use aas_model::{Duplicate, NoMemory, Payload, Reference, ValueType, both, copy_option};

/// Whether attributes are of one kind and, for Property and Range, of one value type.
pub(crate) fn are_alike(payload: &Payload, form: &Payload) -> bool
    ensures { IsTrue result ↔ AreAlike payload.now form.now }
{
    payload.kind() == form.kind() && value_type_of(payload) == value_type_of(form)
}

/// The value type of a Property or a Range.
fn value_type_of(payload: &Payload) -> Option<ValueType>
    ensures { result ≡ value_type_of payload.now }
{
    match payload {
        Payload::Property { value_type, .. } | Payload::Range { value_type, .. } => {
            Some(*value_type)
        }
        _ => None,
    }
}

/// The attributes of an element, of which those that are no values are a form's.
pub(crate) fn with_shown(payload: &Payload, form: &Payload) -> Result<Payload, NoMemory>
    ensures { IfOk result (λ put. put ≡ with_shown payload.now form.now) }
{
    Ok(match payload {
        Payload::Property {
            value_type,
            value,
            ..
        } => {
            let (value, value_id) = both(copy_option(value), value_id_of(form))?;
            Payload::Property {
                value_type: *value_type,
                value,
                value_id,
            }
        }
        Payload::MultiLanguageProperty { value, .. } => {
            let (value, value_id) = both(value.copy(), value_id_of(form))?;
            Payload::MultiLanguageProperty { value, value_id }
        }
        Payload::BasicEventElement { observed, .. } => with_observed(observed, form)?,
        Payload::SubmodelElementList { .. } => form.copy()?,
        _ => payload.copy()?,
    })
}

/// The valueId of a Property or a MultiLanguageProperty.
fn value_id_of(form: &Payload) -> Result<Option<Reference>, NoMemory>
    ensures { IfOk result (λ id. id ≡ value_id_of form.now) }
{
    match form {
        Payload::Property { value_id, .. } | Payload::MultiLanguageProperty { value_id, .. } => {
            copy_option(value_id)
        }
        _ => Ok(None),
    }
}

/// The attributes of a BasicEventElement with what it observes; those of another kind as they are.
fn with_observed(observed: &Option<Reference>, form: &Payload) -> Result<Payload, NoMemory>
    ensures { IfOk result (λ put. put ≡ with_observed observed.now form.now) }
{
    match form {
        Payload::BasicEventElement {
            direction,
            state,
            message_topic,
            message_broker,
            last_update,
            min_interval,
            max_interval,
            ..
        } => {
            let messages = both(copy_option(message_topic), copy_option(message_broker));
            let intervals = both(copy_option(min_interval), copy_option(max_interval));
            let seen = both(copy_option(observed), copy_option(last_update));
            let (seen, (messages, intervals)) = both(seen, both(messages, intervals))?;
            let (observed, last_update) = seen;
            let (message_topic, message_broker) = messages;
            let (min_interval, max_interval) = intervals;
            Ok(Payload::BasicEventElement {
                observed,
                direction: *direction,
                state: *state,
                message_topic,
                message_broker,
                last_update,
                min_interval,
                max_interval,
            })
        }
        _ => form.copy(),
    }
}
