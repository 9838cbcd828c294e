// The answer of the command `value`.
ghost use Rattle.std.specs.Prelude.{◌≡◌, ◌≢◌, ◌≤◌, length, IfOk, IfErr};
ghost use Rattle.serde_json.specs.Written.{compact_text};
ghost use Rattle.aas_json_members.specs.Exact.{data_of};
ghost use Rattle.aas_server.specs.Answer.{done, line, refused};
ghost use Rattle.aas_server.specs.Console.{input_limit};
ghost use Rattle.aas_server.specs.ValueAnswer.{element_answer, IsValueAnswer};

use aas_command::Refusal;
use aas_constraints::check_element;
use aas_document_read::read_tree;
use aas_json_members::Exact;
use aas_model::{Element, Extent, NoMemory};
use aas_value::{has_value_form, value_form};
use std::alloc::Global;

/// The value form of the element that the input spells, as a line, or why there is none.
pub fn answer_value(alloc: Global, input: &[u8]) -> Result<Vec<u8>, Refusal>
    requires { length input.now ≤ input_limit }
    ensures done { IfOk result (λ text. IsValueAnswer input.now (done text.items)) }
    ensures refused { IfErr result (λ refusal. refusal ≢ Refusal.NoMemory → IsValueAnswer input.now (refused refusal)) }
{
    let element = read_tree(alloc, input, 1)?;
    answer_element(alloc, &element)
}

fn answer_element(alloc: Global, element: &Element) -> Result<Vec<u8>, Refusal>
    ensures done { IfOk result (λ text. element_answer element.now ≡ done text.items) }
    ensures refused { IfErr result (λ refusal.
        refusal ≢ Refusal.NoMemory → element_answer element.now ≡ refused refusal) }
{
    if !has_value_form(element.kind()) {
        return Err(Refusal::NoValueForm);
    }
    if let Some(fault) = check_element(alloc, element)? {
        return Err(Refusal::from(fault));
    }
    let Some(form) = value_form(alloc, element, Extent::WithBlobValue)? else {
        unreachable!()
    };
    Ok(line_of(alloc, &form)?)
}

/// The compact text of the value and a line feed.
fn line_of(alloc: Global, form: &Exact) -> Result<Vec<u8>, NoMemory>
    ensures { IfOk result (λ text. text.items ≡ line (compact_text (data_of form.now))) }
{
    let mut text = Vec::new(alloc);
    form.append_to(alloc, &mut text)?;
    text.extend_from_slice(b"\n")?;
    Ok(text)
}
