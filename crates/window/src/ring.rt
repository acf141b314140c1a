// A ring of bytes, with a bit for each cell: is its byte known.
ghost use Rattle.std.specs.Prelude.{◌≡◌, ℕ, ◌+◌, ◌-◌, ◌*◌, ◌/◌, ◌%◌, ◌^◌, ◌<◌, ◌≤◌, min, length, None, Some, vec_len, replicate, if◌then◌else◌, slice_index, Decides, IfOk};
ghost use Rattle.std.specs.Int.{IsPowerOfTwo};
ghost use Rattle.window.specs.Known.{inside, none_known, onwards, overlay};
ghost use Rattle.window.specs.Ring.{Front};

use crate::bits::Bitmap;
use std::alloc::{AllocError, Global};

// Place p has cell p mod the number of cells.
#[derive(Drop)]
pub struct Ring {
    // not one `Vec<Option<u8>>`: two bytes a cell, none lent as a slice, and a run of 1,460 known cells is found in 490 ns, not 58
    bytes: Vec<u8>,
    known: Bitmap,
    ghost bits: { vec_len known.words * 64 ≡ vec_len bytes },
    ghost least: { 1024 ≤ vec_len bytes },
    ghost most: { vec_len bytes ≤ 65536 },
    ghost round: { ∥ IsPowerOfTwo (vec_len bytes) ∥₁ },
}

// As with bits, that a part's cells lie inside stays a premise.
impl Ring {
    ghost use Rattle.window.specs.Cells.{cells};

    // A ring of 2^power cells, of which none is known.
    pub fn new(heap: Global, power: u32) -> Result<Ring, AllocError>
        requires least { 10 ≤ power }
        requires most { power ≤ 16 }
        ensures size { IfOk result (λ r. vec_len r.bytes ≡ 2 ^ power) }
        ensures known { IfOk result (λ r. (c : ℕ) → cells r c ≡ None) }
    {
        let len = 1usize << power;
        Ok(Ring {
            bytes: vec![in heap; 0; len]?,
            known: Bitmap::new(heap, len / 64)?,
        })
    }

    pub fn len(&self) -> usize
        ensures value { result ≡ vec_len self.now.bytes }
        ensures least { 1024 ≤ result }
        ensures most { result ≤ 65536 }
        ensures round { ∥ IsPowerOfTwo result ∥₁ }
    {
        self.bytes.len()
    }

    // The cell of a place.
    fn cell(&self, place: u64) -> usize
        ensures { result ≡ place % vec_len self.now.bytes }
    {
        (place & (self.bytes.len() as u64 - 1)) as usize
    }

    // The byte of a place, if it is known.
    pub fn get(&self, place: u64) -> Option<u8>
        ensures { result ≡ cells self.now (place % vec_len self.now.bytes) }
    {
        let cell = self.cell(place);
        // not `then`: what its closure gives is not found by the search
        if self.known.is_set(cell) {
            Some(self.bytes[cell])
        } else {
            None
        }
    }

    // Where the cells of `len` places from a place on begin, and how many of them come up to the ring's end. The others begin at its start.
    pub fn locate(&self, place: u64, len: usize) -> (usize, usize)
        ensures at { result.0 ≡ place % vec_len self.now.bytes }
        ensures first { result.1 ≡ min len (vec_len self.now.bytes - result.0) }
    {
        let at = self.cell(place);
        (at, len.min(self.bytes.len() - at))
    }

    // Where a cell is known, from the cell `at` on, its byte stands in place of what came.
    // Always inlined, as `agrees` is: for a part of a few bytes a call costs as much as the work.
    #[inline(always)]
    pub fn overlay(&self, at: usize, part: &mut [u8])
        requires { at + length part.old ≤ vec_len self.now.bytes }
        ensures { part.new ≡ overlay (cells self.now) at part.old }
    {
        for (start, end) in self.known.set_runs(at, part.len()) {
            part[start - at..end - at].copy_from_slice(&self.bytes[start..end]);
        }
    }

    // Would `overlay` leave a part as it is?
    #[inline(always)]
    pub fn agrees(&self, at: usize, part: &[u8]) -> bool
        requires { at + length part.now ≤ vec_len self.now.bytes }
        ensures { Decides result (overlay (cells self.now) at part.now ≡ part.now) }
    {
        for (start, end) in self.known.set_runs(at, part.len()) {
            if part[start - at..end - at] != self.bytes[start..end] {
                return false;
            }
        }
        true
    }

    // The first bytes of a part as `overlay` would leave them, as many as lie in one slice: of the part, or of the ring.
    pub fn overlaid_front<'a>(&'a self, at: usize, part: &'a [u8]) -> &'a [u8]
        requires { at + length part.now ≤ vec_len self.now.bytes }
        ensures { Front (cells self.now) at part.now result.now }
    {
        let n = self.known.run(at, part.len(), false);
        if n > 0 {
            return &part[..n];
        }
        self.known_from(at, part.len())
    }

    // The bytes of the cells from `at` on that are known without a gap, at most `count`.
    pub fn known_from(&self, at: usize, count: usize) -> &[u8]
        requires { at + count ≤ vec_len self.now.bytes }
        ensures { result.now ≡ onwards count at (cells self.now) }
    {
        &self.bytes[at..at + self.known.run(at, count, true)]
    }

    // Is none of `count` cells from `at` on known?
    pub fn none_known(&self, at: usize, count: usize) -> bool
        requires { at + count ≤ vec_len self.now.bytes }
        ensures { result ≡ none_known count at (cells self.now) }
    {
        self.known.none(at, count)
    }

    // The cells from `at` on become known with the bytes of a part.
    pub fn learn(&mut self, at: usize, part: &[u8])
        requires { at + length part.now ≤ vec_len self.old.bytes }
        ensures known { (c : ℕ) → cells self.new c ≡ (if inside at (length part.now) c then Some (slice_index part.now (c - at)) else cells self.old c) }
        ensures size { vec_len self.new.bytes ≡ vec_len self.old.bytes }
    {
        self.bytes[at..at + part.len()].copy_from_slice(part);
        self.known.put(at, part.len(), true);
    }

    // `count` cells from `at` on are forgotten.
    pub fn forget(&mut self, at: usize, count: usize)
        requires { at + count ≤ vec_len self.old.bytes }
        ensures known { (c : ℕ) → cells self.new c ≡ (if inside at count c then None else cells self.old c) }
        ensures size { vec_len self.new.bytes ≡ vec_len self.old.bytes }
    {
        self.known.put(at, count, false);
    }
}
