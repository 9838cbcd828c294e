// What is exported.
ghost use Rattle.std.specs.Prelude.{◌≡◌};
ghost use Rattle.aas_step.specs.Valid.{AreValid};
ghost use Rattle.aas_environment.specs.Environments.{export_text};

use crate::pouring::pour_environment;
use aas_out::{Failed, Out, Pour, Pouring, add};
use aas_store::Store;
use std::marker::Model;

/// What is exported of a store whose documents are valid: the text that `pour_environment` puts, and a line feed.
///
/// Contracts see it as this text.
#[derive(Drop)]
pub struct Export<'a, S: Store> {
    store: &'a S,
}

impl<'a, S: Store> Model for Export<'a, S> {
    ghost use Rattle.std.specs.Prelude.{ℕ, List};
    ghost use Rattle.aas_environment.specs.Environments.{export_text};
    ghost use Rattle.aas_step.specs.Valid.{AreValid};

    ghost Value = { List ℕ };

    ghost view = { λ export. export_text (S.documents export.store.now) };

    ghost invariant = { λ export. AreValid (S.documents export.store.now) };
}

impl<'a, S: Store> Export<'a, S> {
    pub fn new(store: &'a S) -> Export<'a, S>
        requires { AreValid (S.documents store.now) }
        ensures { result ≡ export_text (S.documents store.now) }
    {
        Export { store }
    }
}

impl<'a, S: Store> Pour for Export<'a, S> {
    ghost text = { λ text. text };

    fn pour<O: Out>(&self, out: &mut O) -> Result<(), Failed> {
        let told = pour_environment(Pouring::Going, self.store, out);
        add(told, b"\n", out).outcome()
    }
}
