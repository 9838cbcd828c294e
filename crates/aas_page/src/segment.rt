ghost use Rattle.std.specs.Prelude.{◌≡◌, ◌++◌, ℕ, List, Err, IfNone, IfOk, IfSome, OnOk, OnErr};
ghost use Rattle.std.specs.Cow.{cow_slice_items};
ghost use Rattle.base64.specs.Engines.{url_safe_no_pad};
ghost use Rattle.base64.specs.GeneralPurpose.{encode_of, IsBytes};
ghost use Rattle.percent_encoding.specs.Percent.{percent_decode};
ghost use Rattle.aas_page.specs.Laws.{SegmentsStandForOne};
ghost use Rattle.aas_page.specs.Segment.{IsBase64Url, IsCursor, IsIdentifierCode, IsIdentifierText, StandsFor};
ghost use Rattle.aas_page.specs.declared.segment.SegmentFault.TheVariants.{BadIdentifier};

use aas_lexical::is_identifier;
use aas_model::{NoMemory, Text};
use base64::DecodeAllocError;
use base64::engine::general_purpose::{URL_SAFE, URL_SAFE_NO_PAD};
use memchr::memchr;
use percent_encoding::percent_decode;
use std::alloc::Global;
use std::borrow::CowSlice;
use thiserror::Error;

/// Why a segment is read as no identifier.
#[derive(Debug, Drop, Error)]
pub enum SegmentFault {
    /// It stands for none.
    #[error("the segment stands for no identifier")]
    BadIdentifier,
    #[error("memory was refused")]
    NoMemory,
}

/// The identifier, of 1 to 2048 characters, for which a segment of a path stands as it is sent: percent-coded base64url of
/// UTF-8, with all its padding or with none (IDTA-01002-3-0; RFC 4648, section 5).
pub fn id_from_segment(alloc: Global, segment: &[u8]) -> Result<Text, SegmentFault>
    ensures ok { IfOk result (λ id. StandsFor segment.now id) }
    ensures bad { result ≡ Err BadIdentifier → (id : List ℕ) → ¬ StandsFor segment.now id }
{
    let Ok(coded) = percent_decoded(alloc, segment) else {
        return Err(SegmentFault::NoMemory);
    };
    match id_from_base64url(alloc, &coded) {
        Ok(Some(id)) => Ok(id),
        Ok(None) => Err(SegmentFault::BadIdentifier),
        Err(NoMemory) => Err(SegmentFault::NoMemory),
    }
}

/// The bytes for which a segment stands once it is percent-decoded, which are its own where it has no `%`.
pub fn percent_decoded(alloc: Global, segment: &[u8]) -> Result<CowSlice<'_, u8>, NoMemory>
    ensures { IfOk result (λ bytes. cow_slice_items bytes ≡ percent_decode segment.now) }
{
    match memchr(b'%', segment) {
        Some(_) => Ok(percent_decode(segment).into_cow(alloc)?),
        None => Ok(CowSlice::Borrowed(segment)),
    }
}

/// The identifier that a cursor over documents tells: base64url without padding of UTF-8, with 1 to 2048 characters. Nothing
/// where it tells none.
pub fn id_from_cursor(alloc: Global, cursor: &[u8]) -> Result<Option<Text>, NoMemory>
    ensures some { IfOk result (λ found. IfSome found (IsCursor cursor.now)) }
    ensures none { IfOk result (λ found. IfNone found ((id : List ℕ) → ¬ IsCursor cursor.now id)) }
{
    match URL_SAFE_NO_PAD.decode(alloc, cursor) {
        Ok(utf8) => identifier(alloc, &utf8),
        Err(DecodeAllocError::OutOfMemory) => Err(NoMemory),
        Err(DecodeAllocError::DecodeError(_)) => Ok(None),
    }
}

/// The identifier for which base64url stands, with all its padding or with none. Nothing where it stands for none.
pub fn id_from_base64url(alloc: Global, text: &[u8]) -> Result<Option<Text>, NoMemory>
    ensures some { IfOk result (λ found. IfSome found (IsIdentifierCode text.now)) }
    ensures none { IfOk result (λ found. IfNone found ((id : List ℕ) → ¬ IsIdentifierCode text.now id)) }
{
    match from_base64url(alloc, text)? {
        Some(utf8) => identifier(alloc, &utf8),
        None => Ok(None),
    }
}

/// The identifier whose UTF-8 the bytes are. Nothing where they are that of none.
fn identifier(alloc: Global, utf8: &[u8]) -> Result<Option<Text>, NoMemory>
    requires { IsBytes utf8.now }
    ensures some { IfOk result (λ found. IfSome found (IsIdentifierText utf8.now)) }
    ensures none { IfOk result (λ found. IfNone found ((id : List ℕ) → ¬ IsIdentifierText utf8.now id)) }
{
    match str::from_utf8(utf8) {
        Ok(text) if is_identifier(text) => Ok(Some(Text::from_str(alloc, text)?)),
        _ => Ok(None),
    }
}

/// The bytes for which base64url stands, with all its padding or with none. Nothing where it stands for none.
pub fn from_base64url(alloc: Global, text: &[u8]) -> Result<Option<Vec<u8>>, NoMemory>
    ensures some { IfOk result (λ found. IfSome found (λ bytes. IsBytes bytes.items × IsBase64Url text.now bytes.items)) }
    ensures none { IfOk result (λ found. IfNone found ((bytes : List ℕ) → IsBytes bytes → ¬ IsBase64Url text.now bytes)) }
{
    match URL_SAFE_NO_PAD.decode(alloc, text) {
        Ok(bytes) => Ok(Some(bytes)),
        Err(DecodeAllocError::OutOfMemory) => Err(NoMemory),
        Err(DecodeAllocError::DecodeError(_)) => match URL_SAFE.decode(alloc, text) {
            Ok(bytes) => Ok(Some(bytes)),
            Err(DecodeAllocError::OutOfMemory) => Err(NoMemory),
            Err(DecodeAllocError::DecodeError(_)) => Ok(None),
        },
    }
}

/// Appends the segment that stands for an identifier, without padding.
pub fn id_to_segment(id: &str, out: &mut Vec<u8>) -> Result<(), NoMemory>
    ensures ok { OnOk result (out.new.items ≡ out.old.items ++ encode_of url_safe_no_pad id.now) }
    ensures err { OnErr result (out.new.items ≡ out.old.items) }
{
    let alloc = *out.allocator();
    match URL_SAFE_NO_PAD.encode(alloc, id.as_bytes()) {
        Ok(segment) => match out.extend_from_slice(segment.as_bytes()) {
            Ok(()) => Ok(()),
            Err(_) => Err(NoMemory),
        },
        Err(_) => Err(NoMemory),
    }
}

/// A segment stands for one identifier at most.
pub fn segments_stand_for_one()
    ensures { SegmentsStandForOne }
{}
