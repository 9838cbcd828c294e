// What a reply says.
use aas_model_text::{Many, Text};

/// What a reply says.
#[derive(Drop)]
pub struct Reply {
    pub status: u16,
    /// The body, which is JSON. A reply with status 204 has none.
    pub body: Many<u8>,
    /// How many bytes follow the body, which who gives the reply pours behind it.
    pub later: u64,
    /// The methods that are allowed. Only a reply with status 405 names them.
    pub allow: Text,
    /// Whether the connection closes behind the reply.
    pub close: bool,
}
