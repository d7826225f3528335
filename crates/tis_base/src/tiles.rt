//! The grid of tiles.
ghost use Rattle.std.specs.Prelude.{◌≡◌, ◌<◌, ◌↔◌, length, count_by, slice_get, option_map, IsSome, IfSome, Some};
ghost use Rattle.tis_base.specs.Tiles as tiles;

use std::marker::Model;

/// A direction on the grid, and the port of a node that looks there.
#[derive(Clone, Copy, Debug, PartialEq, Eq, Hash)]
pub enum Dir {
    Left,
    Right,
    Up,
    Down,
}

impl Dir {
    /// The direction from the other side: what a tile gives to the left, its neighbour takes from the right.
    #[inline]
    pub fn opposite(self) -> Dir
        ensures { result ≡ tiles.opposite self }
    {
        match self {
            Dir::Left => Dir::Right,
            Dir::Right => Dir::Left,
            Dir::Up => Dir::Down,
            Dir::Down => Dir::Up,
        }
    }
}

/// What stands on a tile: a compute node (T21), a stack memory node (T30), or nothing that works.
#[derive(Clone, Copy, Debug, PartialEq, Eq, Hash)]
pub enum TileKind {
    Compute,
    Memory,
    Damaged,
}

/// How many columns and rows a grid has.
#[derive(Clone, Copy, Debug, PartialEq, Eq, Hash)]
pub struct Shape {
    pub columns: u8,
    pub rows: u8,
}

/// A tile by its number, counted from 0 in reading order.
#[derive(Clone, Copy, Debug, PartialEq, Eq, Hash)]
pub struct Tile {
    pub number: u8,
}

// How many tiles a grid has.
const TILES: usize = 12;

/// A shape, and one kind for each of its tiles.
#[derive(Clone, Copy, Debug, PartialEq, Eq, Hash)]
pub struct Tiles {
    shape: Shape,
    kinds: [TileKind; TILES],
}

impl Model for Tiles {
    ghost use Rattle.std.specs.Prelude.{◌≡◌, length};
    ghost use Rattle.tis_base.specs.Tiles.{Tiles, AreTiles};

    ghost Value = { Tiles };

    ghost view = { λ t. record { shape = t.shape; kinds = t.kinds } };

    ghost invariant = { λ t. AreTiles t.shape t.kinds };

    ghost inverse = { λ b. record { shape = b.shape; kinds = b.kinds } };
}

impl Tiles {
    ghost use Rattle.tis_base.specs.Tiles.{AreTiles, IsOnGrid, neighbour_of, is_compute};

    /// The tiles of this shape with these kinds in reading order. None where the shape isn't four
    /// columns by three rows, or where it has another number of tiles than there are kinds.
    pub fn new(shape: Shape, kinds: &[TileKind]) -> Option<Tiles>
        ensures made { IsSome result ↔ AreTiles shape kinds.now }
        ensures tiles { IfSome result (λ t. t ≡ record { shape = shape; kinds = kinds.now }) }
    {
        if shape.columns != 4 || shape.rows != 3 || kinds.len() != TILES {
            return None;
        }
        let mut all = [TileKind::Damaged; TILES];
        all.copy_from_slice(kinds);
        Some(Tiles { shape, kinds: all })
    }

    /// The number of columns and of rows.
    pub fn shape(&self) -> Shape
        ensures shape { result ≡ self.now.shape }
        ensures tiles { AreTiles self.now.shape self.now.kinds }
    {
        self.shape
    }

    /// What stands on a tile.
    pub fn kind(&self, tile: Tile) -> TileKind
        requires { IsOnGrid self.now tile.number }
        ensures { slice_get self.now.kinds tile.number ≡ Some result }
    {
        self.kinds[tile.number as usize]
    }

    /// The tile that is next in a direction, or None where no tile is there.
    pub fn neighbour(&self, tile: Tile, dir: Dir) -> Option<Tile>
        requires { IsOnGrid self.now tile.number }
        ensures { option_map (λ t. t.number) result ≡ neighbour_of self.now.shape tile.number dir }
    {
        let Shape { columns, rows } = self.shape;
        let number = tile.number;
        let next = match dir {
            Dir::Left if 0 < number % columns => number - 1,
            Dir::Right if number % columns + 1 < columns => number + 1,
            Dir::Up if columns <= number => number - columns,
            Dir::Down if number + columns < columns * rows => number + columns,
            _ => return None,
        };
        Some(Tile { number: next })
    }

    /// How many compute tiles there are.
    pub fn compute_count(&self) -> u8
        ensures { result ≡ count_by is_compute self.now.kinds }
    {
        let mut count = 0;
        for kind in &self.kinds {
            if *kind == TileKind::Compute {
                count += 1;
            }
        }
        count
    }
}
