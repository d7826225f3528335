//! A puzzle with a program for each tile, and what can happen on it.
ghost use Rattle.std.specs.Prelude.{◌≡◌, ◌≢◌, ◌<◌, ◌↔◌, ◌==◌, ℕ, All, AllPairs, Option, IsTrue, IfOk, length, option_map, position, is_some};
ghost use Rattle.std.specs.List.{list_any};
ghost use Rattle.tis_base.specs.Answers.{Gives};
ghost use Rattle.tis_base.specs.Saturation.{IsValue};
ghost use Rattle.tis_base.specs.declared.tiles.Dir.TheVariants as dir;
ghost use Rattle.tis_base.specs.Tiles as tiles;
ghost use Rattle.tis_base.specs.Tiles.{IsOnGrid};
ghost use Rattle.tis_asm.specs.Programs.{IsSound, program_at};
ghost use Rattle.tis_grid.specs.Puzzle.{puzzle_of, has_output, has_input};
ghost use Rattle.tis_grid.specs.State as at;
ghost use Rattle.tis_grid.specs.Events.{is_enabled, works, works_on};
ghost use Rattle.tis_grid.specs.Orders.{Fits, IsAtRest};
ghost use Rattle.tis_grid.specs.HeldGrid.{place_of, input_values};
ghost use Rattle.tis_grid.specs.TileSets.{has};

use crate::event::Event;
use crate::puzzle::{InputAt, OutputAt, Puzzle};
use crate::state::{COLUMNS, State, TILES, no_stacks};
use crate::tile_set::TileSet;
use std::alloc::Global;
use std::marker::Model;
use tis_asm::Programs;
use tis_base::{Dir, NoMemory, Tile, TileKind, Tiles, Values};
use tis_node::{Decoded, Node};

/// A puzzle, and a program for each of its tiles. Contracts see the two.
#[derive(Debug, Drop)]
pub struct Grid {
    pub(crate) puzzle: Puzzle,
    pub(crate) programs: Programs,
    // The same programs, decoded.
    pub(crate) decoded: [Decoded; TILES],
    // The index of the input at each position.
    input_at: [Option<usize>; COLUMNS],
    // The tiles whose node has a program.
    working: TileSet,
}

impl Model for Grid {
    ghost use Rattle.tis_grid.specs.Puzzle.{puzzle_of};
    ghost use Rattle.tis_grid.specs.State as at;
    ghost use Rattle.tis_grid.specs.HeldGrid.{IsHeldGrid};

    ghost Value = { at.Grid };

    ghost view = { λ g. record { puzzle = puzzle_of g.puzzle; programs = g.programs.programs } };

    ghost invariant = { λ g. IsHeldGrid g.puzzle g.programs g.decoded g.input_at g.working };
}

// The index of the input at a position.
fn index_of(inputs: &[InputAt], position: u8) -> Option<usize>
    ensures { result ≡ place_of inputs.now position }
{
    inputs.iter().position(|input| input.position == position)
}

// What comes in are values of the machine.
fn are_values(inputs: &[InputAt])
    ensures { All (λ input. All IsValue input.values.items) inputs.now }
{
    for input in inputs {
        input.values.len();
    }
}

// Whether an output stands at a position.
fn stands_at(outputs: &[OutputAt], position: u8) -> bool
    ensures { result ≡ list_any (λ output. output.position == position) outputs.now }
{
    outputs.iter().any(|output| output.position == position)
}

// The program of a tile, decoded.
fn decode(programs: &Programs, number: u8) -> Decoded
    requires { IsOnGrid programs.now.tiles number }
    ensures { result ≡ program_at programs.now.programs number }
{
    Decoded::new(programs.of(Tile { number }))
}

// Each program, decoded. They are written out, since a decoded program isn't `Copy`.
fn decode_all(programs: &Programs) -> [Decoded; TILES]
    ensures { result ≡ programs.now.programs }
{
    // The call tells the proof how many tiles there are.
    programs.tiles().shape();
    [
        decode(programs, 0),
        decode(programs, 1),
        decode(programs, 2),
        decode(programs, 3),
        decode(programs, 4),
        decode(programs, 5),
        decode(programs, 6),
        decode(programs, 7),
        decode(programs, 8),
        decode(programs, 9),
        decode(programs, 10),
        decode(programs, 11),
    ]
}

// Whether a tile has a node with a program.
fn works_at(tiles: &Tiles, programs: &Programs, tile: Tile) -> bool
    requires kinds { tile.number < length tiles.now.kinds }
    requires programs { IsOnGrid programs.now.tiles tile.number }
    ensures { result ≡ works_on tiles.now.kinds programs.now.programs tile.number }
{
    if !matches!(tiles.kind(tile), TileKind::Compute) {
        return false;
    }
    0 < programs.of(tile).len()
}

// The tiles that have a node with a program.
fn working_tiles(tiles: &Tiles, programs: &Programs) -> TileSet
    requires { programs.now.tiles ≡ tiles.now }
    ensures { (tile : ℕ) → has result tile ≡ works_on tiles.now.kinds programs.now.programs tile }
{
    // The call tells the proof how many tiles there are.
    tiles.shape();
    let mut working = TileSet::empty();
    for number in 0..12u8 {
        let tile = Tile { number };
        working.put(tile, works_at(tiles, programs, tile));
    }
    working
}

impl Grid {
    /// The grid of a puzzle and programs for its tiles.
    pub fn new(puzzle: Puzzle, programs: Programs) -> Grid
        requires tiles { programs.tiles ≡ puzzle.tiles }
        requires sound { (tile : ℕ) → IsSound (program_at programs.programs tile) }
        requires inputs_below { All (λ input. input.position < puzzle.tiles.shape.columns) (puzzle_of puzzle).inputs }
        requires outputs_below { All (λ output. output.position < puzzle.tiles.shape.columns) (puzzle_of puzzle).outputs }
        requires inputs_distinct { AllPairs (λ a b. a.position ≢ b.position) (puzzle_of puzzle).inputs }
        requires outputs_distinct { AllPairs (λ a b. a.position ≢ b.position) (puzzle_of puzzle).outputs }
        ensures { result ≡ record { puzzle = puzzle_of puzzle; programs = programs.programs } }
    {
        // These calls tell the proof what tiles, programs and values are.
        puzzle.tiles.shape();
        programs.tiles();
        are_values(&puzzle.inputs);
        let mut input_at = [None; COLUMNS];
        for position in 0..COLUMNS {
            input_at[position] = index_of(&puzzle.inputs, position as u8);
        }
        let decoded = decode_all(&programs);
        let working = working_tiles(&puzzle.tiles, &programs);
        Grid {
            puzzle,
            programs,
            decoded,
            input_at,
            working,
        }
    }

    /// The puzzle.
    #[inline]
    pub fn puzzle(&self) -> &Puzzle
        ensures puzzle { puzzle_of result.now ≡ self.now.puzzle }
        ensures grid { at.IsGrid self.now }
    {
        &self.puzzle
    }

    /// The programs.
    #[inline]
    pub fn programs(&self) -> &Programs
        ensures programs { result.now ≡ record { tiles = self.now.puzzle.tiles; programs = self.now.programs } }
        ensures grid { at.IsGrid self.now }
    {
        &self.programs
    }

    /// The tiles whose node has a program; no other ever does anything.
    #[inline(always)]
    pub fn working(&self) -> TileSet
        ensures { (tile : ℕ) → has result tile ≡ works self.now tile }
    {
        self.working.copy()
    }

    // The values of the input at a position.
    #[inline]
    pub(crate) fn input(&self, position: u8) -> Option<&Values>
        requires { position < self.now.puzzle.tiles.shape.columns }
        ensures values { option_map (λ v. v.now.items) result ≡ input_values self.now.puzzle position }
    {
        match self.input_at[position as usize] {
            Some(index) => Some(&self.puzzle.inputs[index].values),
            None => None,
        }
    }

    // Whether an output stands at a position.
    fn has_output(&self, position: u8) -> bool
        ensures { result ≡ has_output self.now.puzzle.outputs position }
    {
        stands_at(&self.puzzle.outputs, position)
    }

    // No values, where an output stands at a position.
    fn no_values(&self, alloc: Global, position: u8) -> Option<Values>
        ensures { option_map (λ v. v.items) result ≡ at.empty_output self.now.puzzle position }
    {
        if self.has_output(position) {
            Some(Values::new(alloc))
        } else {
            None
        }
    }

    // How many values the input at a position has.
    fn input_len(&self, position: u8) -> Option<usize>
        requires { position < self.now.puzzle.tiles.shape.columns }
        ensures { result ≡ at.whole_input self.now.puzzle position }
    {
        match self.input(position) {
            Some(values) => Some(values.len()),
            None => None,
        }
    }

    /// The state before any event.
    pub fn start(&self, alloc: Global) -> Result<State, NoMemory>
        ensures state { Gives (λ s. s.state) result (at.start self.now) }
        ensures fits { IfOk result (λ s. Fits self.now s.state) }
    {
        // The call tells the proof how many tiles and columns there are.
        self.puzzle.tiles.shape();
        Ok(State {
            nodes: [Node::fresh(); TILES],
            writing: TileSet::empty(),
            stacks: no_stacks(),
            left: [
                self.input_len(0),
                self.input_len(1),
                self.input_len(2),
                self.input_len(3),
            ],
            outs: [
                self.no_values(alloc, 0),
                self.no_values(alloc, 1),
                self.no_values(alloc, 2),
                self.no_values(alloc, 3),
            ],
        })
    }

    /// Whether an event can happen next. One that names a tile or a position that isn't there can't.
    #[inline(always)]
    pub fn enabled(&self, state: &State, event: Event) -> bool
        requires { Fits self.now state.now.state }
        ensures { result ≡ is_enabled self.now state.now.state event }
    {
        match event {
            Event::Local(tile) => self.can_local(state, tile),
            Event::Meet(tile, dir) => self.can_meet(state, tile, dir),
            Event::In(position) => self.can_take(state, position),
            Event::Out(position) => self.can_give(state, position),
            Event::Push(tile, dir) => self.can_push(state, tile, dir),
            Event::Pop(tile, dir) => self.can_pop(state, tile, dir),
        }
    }
}
