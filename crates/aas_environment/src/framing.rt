// The import of all documents of a store.
ghost use Rattle.std.specs.Prelude.{◌≡◌, MatchResult, OnOk};
ghost use Rattle.aas_command.specs.Commands.{payload_of};
ghost use Rattle.aas_command.specs.Encoding.{HasFields, IsFaultOf};
ghost use Rattle.aas_command.specs.declared.command.Command.TheVariants.{Import};
ghost use Rattle.aas_step.specs.Valid.{AreValid};
ghost use Rattle.aas_environment.specs.Environments.{environment_of};

use crate::pouring::export_text;
use aas_command::{EncodeFault, encode_import_text};
use aas_outside::Frame;
use aas_store::Store;
use std::alloc::Global;

/// The frame of the import of all documents of the store, which are valid. Besides the frame itself it takes the memory
/// of the text in it.
#[tactic(auto, unfolding(aas_command::specs::Commands::payload_of, aas_command::specs::Encoding::HasFields))]
pub fn import_frame<S: Store>(alloc: Global, store: &S) -> Result<Frame, EncodeFault>
    requires { AreValid (S.documents store.now) }
    ensures payload { MatchResult result
        (λ frame. frame ≡ payload_of (Import (environment_of (S.documents store.now))))
        (IsFaultOf (payload_of (Import (environment_of (S.documents store.now))))) }
    ensures fields { OnOk result (HasFields (Import (environment_of (S.documents store.now)))) }
{
    encode_import_text(alloc, &export_text(alloc, store)?)
}
