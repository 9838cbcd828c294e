// What stands at a stop besides the children.
ghost use Rattle.std.specs.Prelude.{◌≡◌, ◌++◌, [], ◌∷◌};
ghost use Rattle.json.specs.Print.{quoted};
ghost use Rattle.aas_out.specs.Adds.{Adds};
ghost use Rattle.aas_json_write_members.specs.Members.{closing, field_text, has_stop, is_wrapped, opening};
ghost use Rattle.aas_json_write_members.specs.Members.{role_fits, stop_name};

use aas_json_write_members::{Stop, comma_of};
use aas_model::{Payload, Role};
use aas_out::{Pouring, TextEnd, add_text};

/// Whether an element of this kind has children at a stop.
#[inline]
#[tactic(auto, unfolding(aas_json_write_members::specs::Members::has_stop))]
pub(crate) fn has_stop(stop: Stop, payload: &Payload) -> bool
    ensures { result ≡ has_stop stop payload.now }
{
    match stop {
        Stop::Annotations => matches!(payload, Payload::AnnotatedRelationshipElement { .. }),
        Stop::InoutputVariables | Stop::InputVariables | Stop::OutputVariables => {
            matches!(payload, Payload::Operation)
        },
        Stop::Statements => matches!(payload, Payload::Entity { .. }),
        Stop::Value => matches!(
            payload,
            Payload::SubmodelElementCollection | Payload::SubmodelElementList { .. }
        ),
    }
}

/// Whether a child of this role stands at a stop.
#[tactic(auto, unfolding(aas_json_write_members::specs::Members::role_fits))]
pub(crate) fn role_fits(stop: Stop, role: Role) -> bool
    ensures { result ≡ role_fits stop role }
{
    match stop {
        Stop::InoutputVariables => matches!(role, Role::Inoutput),
        Stop::InputVariables => matches!(role, Role::Input),
        Stop::OutputVariables => matches!(role, Role::Output),
        Stop::Annotations | Stop::Statements | Stop::Value => true,
    }
}

/// Whether the children at a stop are variables, each in an object of its own.
#[inline]
fn is_wrapped(stop: Stop) -> bool
    ensures { result ≡ is_wrapped stop }
{
    matches!(
        stop,
        Stop::InoutputVariables | Stop::InputVariables | Stop::OutputVariables
    )
}

/// The text before a child at a stop.
#[tactic(auto, unfolding(aas_json_write_members::specs::Members::opening))]
pub(crate) fn opening_of(stop: Stop) -> &'static str
    ensures { result.now ≡ opening stop }
{
    if is_wrapped(stop) { "{\"value\":" } else { "" }
}

/// The text behind a child at a stop.
#[tactic(auto, unfolding(aas_json_write_members::specs::Members::closing))]
pub(crate) fn closing_of(stop: Stop) -> &'static str
    ensures { result.now ≡ closing stop }
{
    if is_wrapped(stop) { "}" } else { "" }
}

/// The name of the member whose items stand at a stop, and the bracket.
#[tactic(auto, unfolding(json::specs::Print::escape_byte))]
fn name_of(stop: Stop) -> &'static str
    ensures { result.now ≡ quoted (stop_name stop) ++ 58 ∷ 91 ∷ [] }
{
    match stop {
        Stop::Annotations => "\"annotations\":[",
        Stop::InoutputVariables => "\"inoutputVariables\":[",
        Stop::InputVariables => "\"inputVariables\":[",
        Stop::OutputVariables => "\"outputVariables\":[",
        Stop::Statements => "\"statements\":[",
        Stop::Value => "\"value\":[",
    }
}

/// Puts what stands before the first child at a stop.
pub(crate) fn put_name<O: TextEnd>(so_far: Pouring, stop: Stop, later: bool, out: &mut O) -> Pouring
    ensures { Adds so_far result (O.told out.old) (O.told out.new) (field_text later (stop_name stop) (91 ∷ [])) }
{
    let comma = add_text(so_far, comma_of(later), out);
    add_text(comma, name_of(stop), out)
}

/// Goes into a child at a stop.
pub(crate) fn put_open<O: TextEnd>(so_far: Pouring, stop: Stop, out: &mut O) -> Pouring
    ensures { Adds so_far result (O.told out.old) (O.told out.new) (opening stop ++ 123 ∷ []) }
{
    let before = add_text(so_far, opening_of(stop), out);
    add_text(before, "{", out)
}
