ghost use Rattle.std.specs.Prelude.{◌≡◌, ◌++◌, OnOk, OnErr, codes, decimal, flat_map, take, vec_len};
ghost use Rattle.std.specs.Str.{IsUtf8};
ghost use Rattle.aas_model.specs.declared.path.PathStep.TheVariants.{Place};
ghost use Rattle.aas_path.specs.PathText.{first_step_text, step_text, path_text, fault_path_text};

use aas_model::{NoMemory, Path, PathStep};
use itoa::Buffer;

// Each of these appends a text; after an error a part of it may stand there.

#[tactic(auto, using(crate::proofs::Utf8::place_utf8))]
fn print_place(place: u64, out: &mut Vec<u8>) -> Result<(), NoMemory>
    ensures ok { OnOk result (out.new.items ≡ out.old.items ++ codes "[" ++ decimal place ++ codes "]") }
    ensures utf8 { OnOk result (IsUtf8 (step_text (Place place))) }
    ensures front { take (vec_len out.old) out.new.items ≡ out.old.items }
{
    out.extend_from_slice(b"[")?;
    out.extend_from_slice(Buffer::new().format(place).as_bytes())?;
    out.extend_from_slice(b"]")?;
    Ok(())
}

#[tactic(auto, using(crate::proofs::Utf8::place_utf8))]
fn print_first_step(step: &PathStep, out: &mut Vec<u8>) -> Result<(), NoMemory>
    ensures ok { OnOk result (out.new.items ≡ out.old.items ++ first_step_text step.now) }
    ensures utf8 { OnOk result (IsUtf8 (first_step_text step.now)) }
    ensures front { take (vec_len out.old) out.new.items ≡ out.old.items }
{
    match step {
        PathStep::Name(name) => out.extend_from_slice(name.as_str().as_bytes())?,
        PathStep::Place(place) => print_place(*place, out)?,
    }
    Ok(())
}

#[tactic(auto, using(crate::proofs::Utf8::dotted_utf8))]
fn print_step(step: &PathStep, out: &mut Vec<u8>) -> Result<(), NoMemory>
    ensures ok { OnOk result (out.new.items ≡ out.old.items ++ step_text step.now) }
    ensures utf8 { OnOk result (IsUtf8 (step_text step.now)) }
    ensures front { take (vec_len out.old) out.new.items ≡ out.old.items }
{
    match step {
        PathStep::Name(name) => {
            out.extend_from_slice(b".")?;
            out.extend_from_slice(name.as_str().as_bytes())?;
        },
        PathStep::Place(place) => print_place(*place, out)?,
    }
    Ok(())
}

fn print_further_steps(steps: &[PathStep], out: &mut Vec<u8>) -> Result<(), NoMemory>
    ensures ok { OnOk result (out.new.items ≡ out.old.items ++ flat_map step_text steps.now) }
    ensures utf8 { OnOk result (IsUtf8 (flat_map step_text steps.now)) }
    ensures front { take (vec_len out.old) out.new.items ≡ out.old.items }
{
    for step in steps {
        print_step(step, out)?;
    }
    Ok(())
}

#[tactic(auto, using(crate::proofs::Utf8::steps_utf8))]
fn print_steps(steps: &[PathStep], out: &mut Vec<u8>) -> Result<(), NoMemory>
    ensures ok { OnOk result (out.new.items ≡ out.old.items ++ path_text steps.now) }
    ensures utf8 { OnOk result (IsUtf8 (path_text steps.now)) }
    ensures front { take (vec_len out.old) out.new.items ≡ out.old.items }
{
    if let Some((first, rest)) = steps.split_first() {
        print_first_step(first, out)?;
        print_further_steps(rest, out)?;
    }
    Ok(())
}

/// Appends the text of the path, nothing for the empty path. After an error `out` is as before.
///
/// IDTA-01002-3-0, idShortPath.
pub fn print_path(path: &Path, out: &mut Vec<u8>) -> Result<(), NoMemory>
    ensures ok { OnOk result (out.new.items ≡ out.old.items ++ path_text path.now.steps) }
    ensures utf8 { OnOk result (IsUtf8 (path_text path.now.steps)) }
    ensures err { OnErr result (out.new.items ≡ out.old.items) }
{
    let before = out.len();
    let printed = print_steps(path.steps.as_slice(), out);
    if printed.is_err() {
        out.truncate(before);
    }
    printed
}

/// Appends the text of a path that says where a fault is: `$` for the empty path, and else its own text. After an error
/// `out` is as before.
#[tactic(auto, using(crate::proofs::Utf8::dollar_utf8))]
pub fn print_fault_path(path: &Path, out: &mut Vec<u8>) -> Result<(), NoMemory>
    ensures ok { OnOk result (out.new.items ≡ out.old.items ++ fault_path_text path.now.steps) }
    ensures utf8 { OnOk result (IsUtf8 (fault_path_text path.now.steps)) }
    ensures err { OnErr result (out.new.items ≡ out.old.items) }
{
    if path.steps.is_empty() {
        out.extend_from_slice(b"$")?;
        return Ok(());
    }
    print_path(path, out)
}
