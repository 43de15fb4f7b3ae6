//! The room that reading works in, kept from one text to the next.
ghost use Rattle.std.specs.Prelude.{◌≡◌, ◌/◌, ◌≤◌, [], ◌∷◌, ◌++◌, IfOk, min};
ghost use Rattle.sj_parse.specs.Answers.{buffer_texts, buffer_positions, buffer_limit, buffer_room, buffer_levels};

use crate::containers::Frame;
use sj_base::{DEFAULT_MAX_DEPTH, Trace};
use std::alloc::{AllocError, Global};

/// The number of bytes of input for which room for one position and one open container is reserved at once.
const BYTES_PER_POSITION: usize = 128;

/// The working memory for reading texts one after another, and the limit of depth for them, in levels. Port of
/// `simd_json::Buffers`.
///
/// Buffers can be used again after any error. Reading never shrinks their room. Contracts list the lengths of the texts that
/// this crate's calls read with them, refused texts included; the list takes no room at run time.
#[derive(Debug, Drop)]
pub struct Buffers {
    pub(crate) positions: Vec<u32>,
    pub(crate) stack: Vec<Frame>,
    pub(crate) max_depth: usize,
    /// The lengths of the texts that were read, in bytes.
    texts: Trace,
}

impl Buffers {
    /// Creates buffers with the limit [`DEFAULT_MAX_DEPTH`], in levels. Port of `simd_json::Buffers::new`.
    ///
    /// `input_len` is the expected length of a text in bytes. For each 128 bytes of it room for one position is reserved at
    /// once, and for one open container, but for no more of these than the limit. Reading a text reserves what it needs beyond
    /// that: room for as many positions as the text has bytes, and for as many open containers as it has positions, but for no
    /// more than the limit.
    ///
    /// # Errors
    ///
    /// `AllocError` if there is no memory for this room.
    pub fn new(alloc: Global, input_len: usize) -> Result<Buffers, AllocError>
        ensures texts { IfOk result (λ buffers. buffer_texts buffers ≡ []) }
        ensures positions { IfOk result (λ buffers. buffer_positions buffers ≡ []) }
        ensures limit { IfOk result (λ buffers. buffer_limit buffers ≡ DEFAULT_MAX_DEPTH) }
        ensures room { IfOk result (λ buffers. input_len / 128 ≤ buffer_room buffers) }
        ensures levels { IfOk result (λ buffers. min (input_len / 128) DEFAULT_MAX_DEPTH ≤ buffer_levels buffers) }
    {
        Buffers::with_max_depth(alloc, input_len, DEFAULT_MAX_DEPTH)
    }

    /// Creates buffers with a limit of depth, in levels: 0 allows scalars alone, 1 containers of scalars too. Port of
    /// `simd_json::Buffers::with_max_depth`.
    ///
    /// `input_len` is as in [`Buffers::new`].
    ///
    /// # Errors
    ///
    /// `AllocError` if there is no memory for this room.
    pub fn with_max_depth(
        alloc: Global,
        input_len: usize,
        max_depth: usize,
    ) -> Result<Buffers, AllocError>
        ensures texts { IfOk result (λ buffers. buffer_texts buffers ≡ []) }
        ensures positions { IfOk result (λ buffers. buffer_positions buffers ≡ []) }
        ensures limit { IfOk result (λ buffers. buffer_limit buffers ≡ max_depth) }
        ensures room { IfOk result (λ buffers. input_len / 128 ≤ buffer_room buffers) }
        ensures levels { IfOk result (λ buffers. min (input_len / 128) max_depth ≤ buffer_levels buffers) }
    {
        let count = input_len / BYTES_PER_POSITION;
        Ok(Buffers {
            positions: Vec::with_capacity(alloc, count)?,
            stack: Vec::with_capacity(alloc, count.min(max_depth))?,
            max_depth,
            texts: Trace::new(),
        })
    }

    /// Returns the limit of depth under which texts are read, in levels.
    pub fn max_depth(&self) -> usize
        ensures { result ≡ buffer_limit self.now }
    {
        self.max_depth
    }

    /// Returns the number of positions for which there is room.
    pub fn capacity(&self) -> usize
        ensures { result ≡ buffer_room self.now }
    {
        self.positions.capacity()
    }

    /// Gives back all room, and forgets the positions.
    pub fn release(&mut self)
        ensures texts { buffer_texts self.new ≡ buffer_texts self.old }
        ensures positions { buffer_positions self.new ≡ [] }
        ensures limit { buffer_limit self.new ≡ buffer_limit self.old }
        ensures room { (buffer_room self.new ≡ 0) × (buffer_levels self.new ≡ 0) }
    {
        let alloc = self.allocator();
        self.positions = Vec::new(alloc);
        self.stack = Vec::new(alloc);
    }

    /// Notes a text of that many bytes.
    pub(crate) fn note(&mut self, len: usize)
        ensures texts { buffer_texts self.new ≡ buffer_texts self.old ++ len ∷ [] }
        ensures positions { buffer_positions self.new ≡ buffer_positions self.old }
        ensures limit { buffer_limit self.new ≡ buffer_limit self.old }
        ensures room { buffer_room self.new ≡ buffer_room self.old }
        ensures levels { buffer_levels self.new ≡ buffer_levels self.old }
    {
        self.texts = self.texts.then(len);
    }

    /// Returns the allocator of the buffers.
    pub(crate) fn allocator(&self) -> Global {
        *self.positions.allocator()
    }

    /// Returns the positions of the text that was scanned last: the indices, in bytes, at which its tokens begin. Port of
    /// `simd_json::Buffers::structural_indexes`.
    ///
    /// They are empty before the first scan, after [`Buffers::release`], after a scan that found a fault (`InvalidUtf8`,
    /// `Eof`, or `Syntax` without a character), and after one that lacked memory. A call that ends with `InputTooLarge` or
    /// `InsufficientPadding` scans nothing and leaves them.
    pub fn structural_indexes(&self) -> &[u32]
        ensures { result.now ≡ buffer_positions self.now }
    {
        &self.positions
    }
}
