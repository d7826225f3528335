//! Which tiles give a value, and to where, kept as one number.
//!
//! So one test tells whether any tile next to one gives to it.
ghost use Rattle.std.specs.Prelude.{◌≡◌, ◌≢◌, ◌⊎◌, ◌<◌, ◌≤◌, ◌+◌, ◌-◌, ◌*◌, ◌^◌, ℕ, length, get_or, Some, true};
ghost use Rattle.std.specs.Int.{bit_at};
ghost use Rattle.tis_base.specs.Tiles.{opposite};
ghost use Rattle.tis_base.specs.declared.tiles.Dir.{Dir as AnyDir};
ghost use Rattle.tis_node.specs.Intents.{gives_to};
ghost use Rattle.tis_grid.specs.Events.{is_giving, is_memory_at, next_tile};
ghost use Rattle.tis_grid.specs.HeldChoices.{AreAround, AreGivers, IsApart, IsMarked, PointAt, bits_of, spot_of};
ghost use Rattle.tis_grid.specs.Orders.{Fits};

use crate::grid::Grid;
use crate::state::{State, TILES};
use tis_base::{Dir, Tile};
use tis_node::Intent;

/// A bit for each tile and direction. Where it isn't set, the tile gives nothing there.
#[derive(Debug, Drop)]
pub(crate) struct Givers {
    pub(crate) marks: u64,
    // By tile, the bits of those next to it, towards it.
    pub(crate) around: [u64; TILES],
    // By tile, all bits where it is a stack: those next to it are looked at, whatever they give.
    pub(crate) always: [u64; TILES],
}

// The place of the bit of a tile and a direction.
#[inline(always)]
pub(crate) fn spot(tile: Tile, dir: Dir) -> u32
    requires { tile.number < 12 }
    ensures spot { result ≡ spot_of tile.number dir }
    ensures few { result < 48 }
{
    let number = match dir {
        Dir::Left => 0,
        Dir::Right => 1,
        Dir::Up => 2,
        Dir::Down => 3,
    };
    4 * u32::from(tile.number) + number
}

// The bits of the directions that an intent gives to.
#[inline(always)]
fn bits(intent: Intent) -> u64
    ensures bits { result ≡ bits_of intent }
    ensures few { result < 16 }
{
    match intent {
        Intent::Nothing => 0,
        Intent::Local => 0,
        Intent::Takes(_) => 0,
        Intent::TakesAny => 0,
        Intent::Gives(Dir::Left) => 1,
        Intent::Gives(Dir::Right) => 2,
        Intent::Gives(Dir::Up) => 4,
        Intent::Gives(Dir::Down) => 8,
        Intent::GivesAny => 15,
    }
}

// Four bits at a place in place of those that stand there.
#[inline(always)]
fn with_bits(marks: u64, first: u32, bits: u64) -> u64
    requires within { first ≤ 44 }
    requires few { bits < 16 }
    ensures here { (place : ℕ) → place < 4 → bit_at result (first + place) ≡ bit_at bits place }
    ensures others { (place : ℕ) → place < 64 → (place < first) ⊎ (first + 4 ≤ place) → bit_at result place ≡ bit_at marks place }
{
    (marks & !(15 << first)) | (bits << first)
}

impl Givers {
    // Marks the directions that a tile would give to, and no others of it.
    #[inline(always)]
    pub(crate) fn mark(&mut self, tile: Tile, intent: Intent)
        requires { tile.number < 12 }
        ensures around { self.new ≡ record self.old { marks = self.new.marks } }
        ensures here { (place : ℕ) → place < 4 → bit_at self.new.marks (4 * tile.number + place) ≡ bit_at (bits_of intent) place }
        ensures others { (place : ℕ) → place < 64 → (place < 4 * tile.number) ⊎ (4 * tile.number + 4 ≤ place) → bit_at self.new.marks place ≡ bit_at self.old.marks place }
    {
        self.marks = with_bits(self.marks, 4 * u32::from(tile.number), bits(intent));
    }
}

impl Grid {
    // The bit of the tile that is next in a direction, towards this one.
    fn point_at(&self, tile: Tile, dir: Dir) -> u64
        requires { tile.number < length self.now.puzzle.tiles.kinds }
        ensures points { (next : ℕ) → next_tile self.now tile.number dir ≡ Some next → bit_at result (spot_of next (opposite dir)) ≡ 1 }
        ensures within { (place : ℕ) → bit_at result place ≡ 1 → place < 48 }
    {
        // The call tells the proof how many tiles there are.
        self.puzzle();
        match self.next(tile, dir) {
            Some(next) => 1 << spot(next, dir.opposite()),
            None => 0,
        }
    }

    // The bits of the tiles next to a tile, towards it.
    fn around(&self, tile: Tile) -> u64
        requires { tile.number < length self.now.puzzle.tiles.kinds }
        ensures { PointAt self.now tile.number result }
    {
        let left = self.point_at(tile, Dir::Left);
        let right = self.point_at(tile, Dir::Right);
        let up = self.point_at(tile, Dir::Up);
        let down = self.point_at(tile, Dir::Down);
        left | right | up | down
    }

    // All bits for a stack, and else none.
    fn always(&self, tile: Tile) -> u64
        ensures { is_memory_at self.now tile.number ≡ true → result ≡ 2 ^ 64 - 1 }
    {
        if self.is_memory(tile) { u64::MAX } else { 0 }
    }

    // Where there is a tile to look at around each one, and none that gives.
    fn no_givers(&self) -> Givers
        ensures { AreAround self.now result }
    {
        // The call tells the proof how many tiles there are.
        self.puzzle();
        let mut around = [0; TILES];
        let mut always = [0; TILES];
        for number in 0..TILES {
            let tile = Tile {
                number: number as u8,
            };
            around[number] = self.around(tile);
            always[number] = self.always(tile);
        }
        Givers {
            marks: 0,
            around,
            always,
        }
    }

    // Which tiles give a value, and to where.
    pub(crate) fn givers(&self, state: &State) -> Givers
        requires { Fits self.now state.now.state }
        ensures { AreGivers self.now state.now.state result }
    {
        // The call tells the proof how many tiles there are.
        self.puzzle();
        let mut givers = self.no_givers();
        for number in 0..TILES {
            let tile = Tile {
                number: number as u8,
            };
            self.mark(state, &mut givers, tile, self.intent(state, tile));
        }
        givers
    }

    // Marks where a tile gives a value, which would do this next.
    #[inline(always)]
    pub(crate) fn mark(&self, state: &State, givers: &mut Givers, tile: Tile, intent: Intent)
        requires within { tile.number < 12 }
        requires gives { (dir : AnyDir) → is_giving self.now state.now.state tile.number dir ≡ gives_to intent dir }
        ensures around { givers.new ≡ record givers.old { marks = givers.new.marks } }
        ensures here { IsMarked self.now state.now.state givers.new.marks tile.number }
        ensures others { (other : ℕ) → other < 12 → other ≢ tile.number → IsMarked self.now state.now.state givers.old.marks other → IsMarked self.now state.now.state givers.new.marks other }
    {
        givers.mark(tile, intent);
    }

    // The bits of the tiles next to one that can do something with it, whose node or stack has changed: they give a value
    // there, or there is a stack.
    #[inline(always)]
    pub(crate) fn concerned(&self, state: &State, givers: &Givers, tile: Tile) -> u64
        requires givers { AreGivers self.now state.now.state givers.now }
        requires within { tile.number < 12 }
        ensures within { (place : ℕ) → bit_at result place ≡ 1 → place < 48 }
        ensures apart { (dir : AnyDir) (next : ℕ) → next_tile self.now tile.number dir ≡ Some next → bit_at result (spot_of next (opposite dir)) ≡ 0 → IsApart self.now state.now.state tile.number next dir }
    {
        // The call tells the proof how many tiles there are.
        self.puzzle();
        let index = tile.number as usize;
        (givers.marks | givers.always[index]) & givers.around[index]
    }
}
