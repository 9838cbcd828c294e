ghost use Rattle.std.specs.Prelude.{◌≡◌, get_or};
ghost use Rattle.aas_sheet_index.specs.Index.{capped, name_bytes, short_key};

use aas_model::Text;

/// What stands beside a row.
#[derive(Drop)]
pub struct Side {
    pub id_short: Option<Text>,
    /// 1 for a child of the submodel.
    pub level: u32,
    /// How many rows the element has with all below it.
    pub size: usize,
    /// The level, the length of the idShort and its first six bytes as one number:
    /// the index tells most sides apart by it.
    pub short_key: u64,
}

impl Side {
    /// The side of an element of an idShort, which stands at a level. Nothing stands below it yet.
    pub fn new(id_short: Option<Text>, level: u32) -> Side
        ensures id_short { result.id_short ≡ id_short }
        ensures level { result.level ≡ level }
        ensures size { result.size ≡ 1 }
        ensures short_key { result.short_key ≡ short_key level (name_bytes id_short) }
    {
        let short_key = match &id_short {
            Some(name) => short_key(level.into(), name.as_str()),
            None => short_key(level.into(), ""),
        };
        Side {
            id_short,
            level,
            size: 1,
            short_key,
        }
    }
}

/// The level, the length of the idShort and its first six bytes, each in a byte of one number.
pub(crate) fn short_key(level: u64, name: &str) -> u64
    ensures { result ≡ short_key level name.now }
{
    let bytes = name.as_bytes();
    u64::from_be_bytes([
        capped_number(level),
        capped_number(bytes.len() as u64),
        byte_at(bytes, 0),
        byte_at(bytes, 1),
        byte_at(bytes, 2),
        byte_at(bytes, 3),
        byte_at(bytes, 4),
        byte_at(bytes, 5),
    ])
}

/// The number, or 255 for each that is greater.
fn capped_number(number: u64) -> u8
    ensures { result ≡ capped number }
{
    number.min(255) as u8
}

/// The byte in a place, or 0 behind the end.
fn byte_at(bytes: &[u8], place: usize) -> u8
    ensures { result ≡ get_or bytes.now place 0 }
{
    match bytes.get(place) {
        Some(byte) => *byte,
        None => 0,
    }
}
