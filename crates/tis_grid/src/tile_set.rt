//! Sets of tiles.
ghost use Rattle.std.specs.Prelude.{◌≡◌, ◌≢◌, ◌<◌, ◌^◌, ◌&&◌, IsTrue, IfSome, ℕ, None, true, false, length, not, replicate, slice_set};
ghost use Rattle.std.specs.Int.{trailing_zeros, w32};
ghost use Rattle.tis_grid.specs.TileSets.{has, is_set, IsFirst};

use std::marker::Model;
use tis_base::Tile;

/// A set of the tiles of a grid. Contracts see a flag for each tile. A look at one tile, and the step from one tile of a set to the
/// next one, take a few instructions.
#[derive(Debug, Drop)]
pub struct TileSet {
    // The bit of its number is 1 where a tile is in the set.
    bits: u32,
}

impl Model for TileSet {
    ghost use Rattle.std.specs.Prelude.{List, Bool, ◌<◌, ◌^◌};
    ghost use Rattle.tis_grid.specs.TileSets.{flags_of};

    ghost Value = { List Bool };

    ghost view = { λ s. flags_of s.bits };

    ghost invariant = { λ s. s.bits < 2 ^ 12 };
}

// The bits with that of a number set, or not set.
#[inline(always)]
fn with_bit(bits: u32, number: u8, is_in: bool) -> u32
    requires { number < 12 }
    ensures below { bits < 2 ^ 12 → result < 2 ^ 12 }
    ensures here { is_set result number ≡ is_in }
    ensures others { (other : ℕ) → other < 12 → other ≢ number → is_set result other ≡ is_set bits other }
{
    if is_in {
        return bits | (1u32 << number);
    }
    bits & !(1u32 << number)
}

// The bits without the lowest of them.
#[inline(always)]
fn without_lowest(bits: u32) -> u32
    requires { 0 < bits }
    ensures below { bits < 2 ^ 12 → result < 2 ^ 12 }
    ensures here { is_set result (trailing_zeros w32 bits) ≡ false }
    ensures others { (other : ℕ) → other < 12 → other ≢ trailing_zeros w32 bits → is_set result other ≡ is_set bits other }
{
    bits & (bits - 1)
}

impl TileSet {
    /// The set without a tile.
    #[inline(always)]
    pub fn empty() -> TileSet
        ensures { result ≡ replicate 12 false }
    {
        TileSet { bits: 0 }
    }

    /// A set with the same tiles.
    #[inline(always)]
    pub fn copy(&self) -> TileSet
        ensures { result ≡ self.now }
    {
        TileSet { bits: self.bits }
    }

    /// Whether no tile is in the set.
    #[inline(always)]
    pub fn is_empty(&self) -> bool
        ensures { IsTrue result → (tile : ℕ) → has self.now tile ≡ false }
    {
        self.bits == 0
    }

    /// Whether a tile is in the set.
    #[inline(always)]
    pub fn has(&self, tile: Tile) -> bool
        requires { tile.number < 12 }
        ensures { result ≡ has self.now tile.number }
    {
        (self.bits >> tile.number) & 1 == 1
    }

    /// The tiles that are in both sets.
    #[inline(always)]
    pub fn both(&self, other: &TileSet) -> TileSet
        ensures { (tile : ℕ) → has result tile ≡ (has self.now tile && has other.now tile) }
    {
        TileSet {
            bits: self.bits & other.bits,
        }
    }

    /// The tiles that are in this set and not in the other.
    #[inline(always)]
    pub fn without(&self, other: &TileSet) -> TileSet
        ensures { (tile : ℕ) → has result tile ≡ (has self.now tile && not (has other.now tile)) }
    {
        TileSet {
            bits: self.bits & !other.bits,
        }
    }

    /// Puts a tile into the set, or takes it out.
    #[inline(always)]
    pub fn put(&mut self, tile: Tile, is_in: bool)
        requires { tile.number < length self.old }
        ensures { self.new ≡ slice_set self.old tile.number is_in }
    {
        self.bits = with_bit(self.bits, tile.number, is_in);
    }

    /// Puts a tile into the set. It stands out of line, for loops that seldom come to it.
    #[inline(never)]
    pub fn add(&mut self, tile: Tile)
        requires { tile.number < length self.old }
        ensures { self.new ≡ slice_set self.old tile.number true }
    {
        self.put(tile, true);
    }

    /// Takes the first tile out of the set that has one.
    #[inline(always)]
    pub fn take_first(&mut self) -> Option<Tile>
        ensures none { result ≡ None → (tile : ℕ) → has self.old tile ≡ false }
        ensures first { IfSome result (λ tile. IsFirst self.old tile.number) }
        ensures others { IfSome result (λ tile. self.new ≡ slice_set self.old tile.number false) }
    {
        if self.bits == 0 {
            return None;
        }
        let tile = Tile {
            number: self.bits.trailing_zeros() as u8,
        };
        self.bits = without_lowest(self.bits);
        Some(tile)
    }
}
