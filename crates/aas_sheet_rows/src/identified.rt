ghost use Rattle.std.specs.Str.{encode_utf8_all};

use crate::sheet::Sheet;
use aas_model::{Duplicate, NoMemory, Text};
use aas_store::Identified;

impl Identified for Sheet {
    ghost id_of = { λ s. encode_utf8_all s.head.id };

    fn id(&self) -> Result<Text, NoMemory> {
        self.head().head.id.copy()
    }
}
