// The console: its input read to the end, and the last text given.
ghost use Rattle.std.specs.Prelude.{◌≡◌, ◌≢◌, ◌<◌, ◌≤◌, ◌⊎◌, length, IfOk, IfErr, IfSome, OnOk, IsErrOf};
ghost use Rattle.std.specs.Io.KnownBytes.{append_known, IsAtEnd};
ghost use Rattle.aas_outside.specs.Faults.{Rose};
ghost use Rattle.aas_outside.specs.Link.{AreGives, GivesFront};
ghost use Rattle.aas_server.specs.Answer.{damage, refused};
ghost use Rattle.aas_server.specs.Status.{exit_code};
ghost use Rattle.aas_server.specs.Stop.{IfRefused};

use crate::status::Status;
use crate::stop::Stop;
use aas_command::Refusal;
use aas_model::NoMemory;
use aas_outside::{Failed, Link, give_all};
use itoa::Buffer;
use std::alloc::Global;

/// Takes all that is left on the link, at most so many bytes, to the end of its input and in whatever pieces it comes.
pub fn read_input<L: Link>(alloc: Global, link: &mut L, limit: usize) -> Result<Vec<u8>, Stop>
    ensures whole { IfOk result (λ text. IfSome (L.state link.old).left (λ input. text.items ≡ input)) }
    ensures within { IfOk result (λ text. length text.items ≤ limit) }
    ensures ended { OnOk result (IsAtEnd (L.state link.new).left) }
    ensures refused { IfErr result (λ stop. IfRefused stop (λ refusal. refusal ≢ Refusal.NoMemory →
        (refusal ≡ Refusal.TooLarge) × IfSome (L.state link.old).left (λ input. limit < length input))) }
    ensures fault { IsErrOf result Stop.LinkFault → Rose (L.state link.old).faults (L.state link.new).faults }
    ensures later { (L.state link.old).faults ≤ (L.state link.new).faults }
    ensures sent { (L.state link.new).sent ≡ (L.state link.old).sent }
{
    let mut text = Vec::new(alloc);
    let mut buf = [0; 4096];
    loop {
        let count = link.take(&mut buf)?;
        if count == 0 {
            return Ok(text);
        }
        if count > limit - text.len() {
            return Err(Stop::Refused(Refusal::TooLarge));
        }
        text.extend_from_slice(&buf[..count])?;
    }
}

/// Gives the text and answers the status, or that of a fault where the link fails.
pub fn end_with<L: Link>(link: &mut L, text: &[u8], status: Status) -> Status
    requires { exit_code status ≢ 3 }
    ensures given { exit_code result ≢ 3 → (exit_code result ≡ exit_code status)
        × ((L.state link.new).sent ≡ append_known (L.state link.old).sent text.now) }
    ensures front { exit_code result ≡ 3 → GivesFront (L.state link.old).sent (L.state link.new).sent text.now }
    ensures gives { AreGives (exit_code result ≡ 3) (L.state link.old) (L.state link.new) }
    ensures statuses { (exit_code result ≡ 3) ⊎ (exit_code result ≡ exit_code status) }
{
    match give_all(link, text) {
        Ok(()) => status,
        Err(Failed) => Status::LinkFault,
    }
}

/// The line of a refusal, which is none where it is want of memory.
fn refused_line(alloc: Global, refusal: &Refusal) -> Result<Vec<u8>, NoMemory>
    ensures line { IfOk result (λ line. line.items ≡ (refused refusal.now).text) }
    ensures refusal { OnOk result (refusal.now ≢ Refusal.NoMemory) }
{
    if let Refusal::NoMemory = refusal {
        return Err(NoMemory);
    }
    let mut line = Vec::from_slice(alloc, b"aasd: refused ")?;
    line.extend_from_slice(Buffer::new().format(refusal.code()).as_bytes())?;
    line.extend_from_slice(b" ")?;
    line.extend_from_slice(&refusal.text(alloc)?)?;
    line.extend_from_slice(b"\n")?;
    Ok(line)
}

/// Gives the line of the refusal and answers its status, or that of a fault where the link fails.
pub fn end_refused<L: Link>(alloc: Global, link: &mut L, refusal: &Refusal) -> Status
    ensures given { exit_code result ≡ 7 → (refusal.now ≢ Refusal.NoMemory)
        × ((L.state link.new).sent ≡ append_known (L.state link.old).sent (refused refusal.now).text) }
    ensures front { exit_code result ≡ 3 → (refusal.now ≢ Refusal.NoMemory)
        × GivesFront (L.state link.old).sent (L.state link.new).sent (refused refusal.now).text }
    ensures memory { exit_code result ≡ 10 → link.new ≡ link.old }
    ensures gives { AreGives (exit_code result ≡ 3) (L.state link.old) (L.state link.new) }
    ensures statuses { (exit_code result ≡ 3) ⊎ (exit_code result ≡ 7) ⊎ (exit_code result ≡ 10) }
{
    match refused_line(alloc, refusal) {
        Ok(line) => end_with(link, &line, Status::Refused),
        Err(NoMemory) => Status::NoMemory,
    }
}

/// The line of a journal that is damaged at the gate of this place.
fn damaged_line(alloc: Global, at: u64) -> Result<Vec<u8>, NoMemory>
    ensures { IfOk result (λ line. line.items ≡ (damage at).text) }
{
    let mut line = Vec::from_slice(alloc, b"aasd: damaged at ")?;
    line.extend_from_slice(Buffer::new().format(at).as_bytes())?;
    line.extend_from_slice(b"\n")?;
    Ok(line)
}

/// Gives the line of a damaged journal and answers its status, or that of a fault where the link fails.
pub fn end_damaged<L: Link>(alloc: Global, link: &mut L, at: u64) -> Status
    ensures given { exit_code result ≡ 6 →
        (L.state link.new).sent ≡ append_known (L.state link.old).sent (damage at).text }
    ensures front { exit_code result ≡ 3 → GivesFront (L.state link.old).sent (L.state link.new).sent (damage at).text }
    ensures memory { exit_code result ≡ 10 → link.new ≡ link.old }
    ensures gives { AreGives (exit_code result ≡ 3) (L.state link.old) (L.state link.new) }
    ensures statuses { (exit_code result ≡ 3) ⊎ (exit_code result ≡ 6) ⊎ (exit_code result ≡ 10) }
{
    match damaged_line(alloc, at) {
        Ok(line) => end_with(link, &line, Status::Damaged),
        Err(NoMemory) => Status::NoMemory,
    }
}
