//! A point that a state can be brought back to.
use crate::state::{COLUMNS, TILES};
use std::marker::Model;
use tis_devices::Stack;
use tis_node::Node;

/// What a state was at one moment, but for the values that its outputs had taken, of which it keeps how many
/// there were. It has a fixed size and takes no memory.
#[derive(Debug, Drop)]
pub struct Point {
    pub(crate) nodes: [Node; TILES],
    pub(crate) stacks: [Stack; TILES],
    pub(crate) left: [Option<usize>; COLUMNS],
    pub(crate) lengths: [Option<usize>; COLUMNS],
}

impl Model for Point {
    ghost use Rattle.std.specs.Prelude.{map};
    ghost use Rattle.tis_node.specs.NodeView.{node_view};
    ghost use Rattle.tis_grid.specs.Points as points;

    ghost Value = { points.Point };

    ghost view = { λ p. record {
      nodes = map node_view p.nodes;
      stacks = p.stacks;
      left = p.left;
      lengths = p.lengths;
    } };
}
