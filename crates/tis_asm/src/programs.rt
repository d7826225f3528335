//! One program for each tile.
ghost use Rattle.std.specs.Prelude.{◌≡◌, ◌<◌, [], length, replicate, slice_get, slice_set, Some};
ghost use Rattle.tis_base.specs.Answers.{Gives};
ghost use Rattle.tis_base.specs.Tiles.{IsOnGrid, IsCompute};

use crate::program::Program;
use std::alloc::Global;
use std::marker::Model;
use tis_base::{NoMemory, Tile, Tiles};

/// The tiles, and one program for each of them. Only compute tiles have instructions.
#[derive(Debug, Drop)]
pub struct Programs {
    tiles: Tiles,
    programs: Vec<Program>,
}

impl Model for Programs {
    ghost use Rattle.tis_asm.specs.Programs.{Programs, ArePrograms};

    ghost Value = { Programs };

    ghost view = { λ p. record { tiles = p.tiles; programs = p.programs.items } };

    ghost invariant = { λ p. ArePrograms (record { tiles = p.tiles; programs = p.programs.items }) };
}

impl Programs {
    ghost use Rattle.tis_asm.specs.Programs.{ArePrograms};

    /// The empty program on each tile.
    pub fn empty(alloc: Global, tiles: Tiles) -> Result<Programs, NoMemory>
        ensures { Gives (λ p. p) result (record { tiles = tiles; programs = replicate (length tiles.kinds) [] }) }
    {
        let count = tiles.shape().columns * tiles.shape().rows;
        let mut programs = Vec::new(alloc);
        for _ in 0..count {
            programs.push(Program::new())?;
        }
        Ok(Programs { tiles, programs })
    }

    /// The program of a tile.
    pub fn of(&self, tile: Tile) -> &Program
        requires { IsOnGrid self.now.tiles tile.number }
        ensures { slice_get self.now.programs tile.number ≡ Some result.now }
    {
        &self.programs[tile.number as usize]
    }

    /// Gives a compute tile this program in place of its own.
    pub fn set(&mut self, tile: Tile, program: Program)
        requires { IsCompute self.old.tiles tile.number }
        ensures { self.new ≡ record self.old { programs = slice_set self.old.programs tile.number program } }
    {
        self.programs[tile.number as usize] = program;
    }

    /// The tiles.
    pub fn tiles(&self) -> Tiles
        ensures tiles { result ≡ self.now.tiles }
        ensures programs { ArePrograms self.now }
    {
        self.tiles
    }
}
