//! Environments of the Asset Administration Shell (IDTA-01001-3-0, class Environment): all documents of a store as one
//! text, and the documents of such a text as one command.
//!
//! What a command does is said below (`aas_step`); the console stands above.
//!
//! Proved, by the contract of `pour_environment`, `measure_export`, `export`, `import`, `import_frame`;
//! `exports_come_back`, `export_reads_back`, `stored_documents_read_back`, `twice_is_once`:
//!
//! - Over any store: where its documents are valid, the canonical text of all of them as one environment, each
//!   list in the byte order of identifiers, is put into any end without memory, and the frame of its import is
//!   made.
//! - An export of a repository gives that text and a line feed and tells how many bytes these are, or a front
//!   where the link fails, or nothing exactly where they are 2^64 or more.
//! - A file is imported as one command, or why it isn't is told exactly, with the first document that is refused,
//!   and nothing has changed then, neither the documents nor the keeper, unless this fails: then the repository is
//!   stopped. But for what is kept, this holds also of a keeper that doesn't tell it.
//! - Where there are no documents, importing the environment of an export gives these documents.
//! - So do the bytes of an export, where they are UTF-8, as those of a store's documents are: they are read as that
//!   environment, and importing them comes to these documents or, for want of room, to a refusal, and to nothing else.
//! - Importing an environment twice is importing it once.

#![tactic(auto)]

mod blame;
mod exported;
mod exporting;
mod framing;
mod import_fault;
mod importing;
mod laws;
mod members;
mod pouring;

pub use exported::Export;
pub use exporting::{ExportFault, export, measure_export};
pub use framing::import_frame;
pub use import_fault::ImportFault;
pub use importing::import;
pub use laws::{export_reads_back, exports_come_back, stored_documents_read_back, twice_is_once};
pub use pouring::pour_environment;
