// The functions here do nothing, but for the last: their contracts are laws of environments.

ghost use Rattle.std.specs.Prelude.{OnOk};
ghost use Rattle.aas_step.specs.Valid.{AreValid};
ghost use Rattle.aas_environment.specs.Laws.{ComesBack, ExportReadsBack, ExportsComeBack, TwiceIsOnce};

use crate::pouring::export_text;
use aas_model::NoMemory;
use aas_store::Store;
use std::alloc::Global;

/// What is exported of valid documents is imported as these documents, where there are none before.
pub fn exports_come_back()
    ensures { ExportsComeBack }
{}

/// The bytes of an export of valid documents, which are UTF-8, are read as their environment, and imported as these
/// documents, where there are none before.
pub fn export_reads_back()
    ensures { ExportReadsBack }
{}

/// Importing an environment twice gives what importing it once gives.
pub fn twice_is_once()
    ensures { TwiceIsOnce }
{}

/// What is exported of a store reads back, unless memory is refused: its text is made, which shows that it is UTF-8.
pub fn stored_documents_read_back<S: Store>(alloc: Global, store: &S) -> Result<(), NoMemory>
    requires { AreValid (S.documents store.now) }
    ensures { OnOk result (ComesBack (S.documents store.now)) }
{
    let _text = export_text(alloc, store)?;
    Ok(())
}
