// Exports.
ghost use Rattle.std.specs.Prelude.{◌≡◌, ◌^◌, ◌↔◌, ◌≤◌, length, nat_lt, Some, None, Err, IfOk, if◌then◌else◌};
ghost use Rattle.std.specs.Io.KnownBytes.{append_known};
ghost use Rattle.aas_outside.specs.Link.{AreGives, GivesFront};
ghost use Rattle.aas_environment.specs.Environments.{export_text};

use crate::exported::Export;
use aas_out::{Failed, Link, PieceBuffer, give_poured, measure};
use aas_outside::Keeper;
use aas_repo::Repo;
use aas_store::Store;
use thiserror::Error;

/// Why an export has no end.
#[derive(Debug, Drop, Error)]
pub enum ExportFault {
    /// The link failed.
    #[error("the link failed")]
    Failed,
    /// The text has 2^64 bytes or more.
    #[error("the text has 2^64 bytes or more")]
    TooLong,
}

/// How many bytes an export of the repository gives, or `None` where they are 2^64 or more.
pub fn measure_export<S: Store, K: Keeper>(repo: &Repo<S, K>) -> Option<u64>
    ensures { let bytes = length (export_text repo.now.documents) in
        result ≡ (if nat_lt bytes (2 ^ 64) then Some bytes else None) }
{
    measure(&Export::new(repo.store()))
}

/// Gives the link all documents of the repository as one environment,
/// and a line feed; it answers how many bytes that was.
///
/// # Errors
///
/// `TooLong` exactly where the text has 2^64 bytes or more: nothing is given then. At `Failed` the link failed, and a
/// front of the text was given.
pub fn export<S: Store, K: Keeper, L: Link>(
    repo: &Repo<S, K>,
    link: &mut L,
) -> Result<u64, ExportFault>
    ensures given { IfOk result (λ count. (count ≡ length (export_text repo.now.documents))
        × ((L.state link.new).sent ≡ append_known (L.state link.old).sent (export_text repo.now.documents))) }
    ensures too_long { (result ≡ Err ExportFault.TooLong) ↔ (2 ^ 64 ≤ length (export_text repo.now.documents)) }
    ensures untouched { result ≡ Err ExportFault.TooLong → link.new ≡ link.old }
    ensures front { result ≡ Err ExportFault.Failed
        → GivesFront (L.state link.old).sent (L.state link.new).sent (export_text repo.now.documents) }
    ensures gives { AreGives (result ≡ Err ExportFault.Failed) (L.state link.old) (L.state link.new) }
{
    let Some(count) = measure_export(repo) else {
        return Err(ExportFault::TooLong);
    };
    match give_poured(&Export::new(repo.store()), link, &mut PieceBuffer::new()) {
        Ok(()) => Ok(count),
        Err(Failed) => Err(ExportFault::Failed),
    }
}
