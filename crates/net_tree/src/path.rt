//! The tiles that a link passes.
ghost use Rattle.std.specs.Prelude.{◌≡◌, ◌<◌, ◌≤◌, ◌↔◌, [], ◌∷◌, ◌++◌, length, slice_get, Some, IsTrue};
ghost use Rattle.std.specs.Bool.{OnTrue, OnFalse};

use arrayvec::ArrayVec;
use std::marker::Model;

// How many tiles a path has at most.
const TILES: usize = 48;

/// The tiles that a link passes, by their numbers, in order: at most 48.
#[derive(Debug, Drop)]
pub struct Path {
    tiles: ArrayVec<u8, TILES>,
}

impl Model for Path {
    ghost use Rattle.std.specs.Prelude.{List, ℕ};

    ghost Value = { List ℕ };

    ghost view = { λ p. p.tiles.items };
}

impl Path {
    /// The path that passes no tile.
    pub fn new() -> Path
        ensures { result ≡ [] }
    {
        Path {
            tiles: ArrayVec::new(),
        }
    }

    /// One more tile at the end. False, and the path stays as it is, exactly where 48 are there.
    pub fn push(&mut self, tile: u8) -> bool
        ensures full { IsTrue result ↔ (length self.old < 48) }
        ensures pushed { OnTrue result (self.new ≡ self.old ++ tile ∷ []) }
        ensures unchanged { OnFalse result (self.new ≡ self.old) }
    {
        self.tiles.try_push(tile).is_ok()
    }

    /// How many tiles it passes.
    pub fn len(&self) -> u8
        ensures len { result ≡ length self.now }
        ensures short { length self.now ≤ 48 }
    {
        self.tiles.len() as u8
    }

    /// The tile at an index from 0 on.
    pub fn at(&self, index: u8) -> u8
        requires { index < length self.now }
        ensures { slice_get self.now index ≡ Some result }
    {
        self.tiles[index as usize]
    }

    // The tiles, in order.
    pub(crate) fn tiles(&self) -> &[u8]
        ensures { result.now ≡ self.now }
    {
        self.tiles.as_slice()
    }
}
