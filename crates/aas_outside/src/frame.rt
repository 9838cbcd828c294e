// A payload as it is kept.
ghost use Rattle.std.specs.Int.{to_be_bytes, w32};
ghost use Rattle.std.specs.Prelude.{◌≡◌, ◌<◌, ◌≤◌, ◌^◌, ◌++◌, [], drop, length, IfErr, IfOk};
ghost use Rattle.aas_outside.specs.Frame.{frame_bytes};

use aas_model_text::NoMemory;
use std::alloc::Global;
use std::marker::Model;

/// A payload of fewer than 2^32 bytes as it is kept: its length in four bytes, greatest first, the
/// payload, and a zero byte. Contracts see it as the payload.
#[derive(Drop)]
pub struct Frame {
    bytes: Vec<u8>,
}

impl Model for Frame {
    ghost use Rattle.std.specs.Prelude.{◌≡◌, ◌<◌, ◌^◌, ℕ, List, length};
    ghost use Rattle.aas_outside.specs.Frame.{frame_bytes, payload_of};

    ghost Value = { List ℕ };

    ghost view = { λ frame. payload_of frame.bytes.items };

    ghost invariant = { λ frame. (frame.bytes.items ≡ frame_bytes (payload_of frame.bytes.items))
        × (length (payload_of frame.bytes.items) < 2 ^ 32) };
}

impl Frame {
    /// The length of the payload.
    pub fn len(&self) -> u64
        ensures value { result ≡ length self.now }
        ensures limit { result < 2 ^ 32 }
    {
        self.bytes.len() as u64 - 5
    }

    /// The length, the payload and the zero byte.
    pub fn bytes(&self) -> &[u8]
        ensures { result.now ≡ frame_bytes self.now }
    {
        &self.bytes
    }

    /// The payload.
    pub fn payload(&self) -> &[u8]
        ensures { result.now ≡ self.now }
    {
        &self.bytes[4..self.bytes.len() - 1]
    }
}

/// A frame whose payload is being written. Contracts see it as the payload so far.
#[derive(Drop)]
pub struct FrameWriter {
    bytes: Vec<u8>,
}

impl Model for FrameWriter {
    ghost use Rattle.std.specs.Prelude.{◌≤◌, ℕ, List, drop, length};

    ghost Value = { List ℕ };

    ghost view = { λ writer. drop 4 writer.bytes.items };

    ghost invariant = { λ writer. 4 ≤ length writer.bytes.items };
}

impl FrameWriter {
    /// A frame without payload so far. The memory of a payload of `size` bytes is taken at once.
    pub fn new(alloc: Global, size: usize) -> Result<FrameWriter, NoMemory>
        ensures { IfOk result (λ writer. writer ≡ []) }
    {
        let mut bytes = Vec::with_capacity(alloc, size.saturating_add(5))?;
        bytes.extend_from_slice(&[0, 0, 0, 0])?;
        Ok(FrameWriter { bytes })
    }

    /// Writes bytes behind the payload so far, or none at want of memory.
    pub fn write(&mut self, bytes: &[u8]) -> Result<(), NoMemory>
        ensures written { IfOk result (λ _. self.new ≡ self.old ++ bytes.now) }
        ensures unchanged { IfErr result (λ _. self.new ≡ self.old) }
    {
        self.bytes.extend_from_slice(bytes)?;
        Ok(())
    }

    /// The length of the payload so far.
    pub fn len(&self) -> u64
        ensures { result ≡ length self.now }
    {
        self.bytes.len() as u64 - 4
    }

    /// The frame of the payload, which has fewer than 2^32 bytes.
    pub fn finish(self) -> Result<Frame, NoMemory>
        requires { length self < 2 ^ 32 }
        ensures { IfOk result (λ frame. frame ≡ self) }
    {
        let size = self.len() as u32;
        let mut bytes = self.bytes;
        put_size(&mut bytes, size);
        bytes.extend_from_slice(&[0])?;
        Ok(Frame { bytes })
    }
}

/// Puts a size into the first four bytes.
fn put_size(bytes: &mut [u8], size: u32)
    requires { 4 ≤ length bytes.old }
    ensures { bytes.new ≡ to_be_bytes w32 size ++ drop 4 bytes.old }
{
    bytes[..4].copy_from_slice(&size.to_be_bytes());
}
