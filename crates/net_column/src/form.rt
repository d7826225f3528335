//! The networks that are taken so far.
ghost use Rattle.std.specs.Prelude.{◌≡◌, ◌↔◌, ◌<◌, ◌+◌, ◌*◌, [], ◌∷◌, drop, length, map, IsTrue};
ghost use Rattle.net_tree.specs.Tree.{statements_of};
ghost use Rattle.net_tree.specs.View.{port_view, channel_view, process_view};
ghost use Rattle.net_numbered.specs.View.{numbered_block, numbered_statement};
ghost use Rattle.net_rules.specs.CheckedNet.{IsChecked, net_of};
ghost use Rattle.net_rules.specs.Numbers.{numbered};
ghost use Rattle.net_rules.specs.Uses.{is_same_var};
ghost use Rattle.net_select.specs.Selects.{body_of};
ghost use Rattle.net_tree.specs.declared.tree.Var.TheVariants.{X};
ghost use Rattle.net_column.specs.Column.{IsColumn, plain_tiles, is_operation as operates, sends_on as sends, gets_from as gets, moves_between as moves, computes_and_sends as computes, is_round as is_round_of, stands_at as pinned_to, are_same, passes_by as goes_by, tiles_below, column_of as column_of_inputs, are_ends as ends, are_direct as direct, is_in_place as in_place, stand_in_line as in_line};

use net_numbered::{NumberedBlock, NumberedStatement};
use net_rules::Checked;
use net_select::lines_of;
use net_tree::{ChannelLine, Path, PortLine, ProcessText, Var};
use tis_base::Tiles;

// How many lines the code of a tile has at most.
const LINES: u64 = 15;

// How many tiles there are.
const TILES: u8 = 12;

// Whether a variable is x.
fn is_x(var: Var) -> bool
    ensures { result ≡ is_same_var X var }
{
    match var {
        Var::X => true,
        Var::Y => false,
    }
}

// Whether a statement computes with x.
fn is_operation(statement: &NumberedStatement) -> bool
    ensures { result ≡ operates (numbered_statement statement.now) }
{
    match statement {
        NumberedStatement::Set(var, _) => is_x(*var),
        NumberedStatement::Add(var, _) => is_x(*var),
        NumberedStatement::Sub(var, _) => is_x(*var),
        NumberedStatement::Neg(var) => is_x(*var),
        NumberedStatement::Double(var) => is_x(*var),
        _ => false,
    }
}

// Whether a statement sends x or a number on this name.
fn sends_on(statement: &NumberedStatement, name: u32) -> bool
    ensures { result ≡ sends name (numbered_statement statement.now) }
{
    match statement {
        NumberedStatement::Put(written, var) => *written == name && is_x(*var),
        NumberedStatement::PutNumber(written, _) => *written == name,
        _ => false,
    }
}

// Whether a statement reads a value of this name into x.
fn gets_from(statement: &NumberedStatement, name: u32) -> bool
    ensures { result ≡ gets name (numbered_statement statement.now) }
{
    match statement {
        NumberedStatement::Get(read, var) => *read == name && is_x(*var),
        _ => false,
    }
}

// Whether a statement moves a value from one name to the other.
fn moves_between(statement: &NumberedStatement, read: u32, written: u32) -> bool
    ensures { result ≡ moves read written (numbered_statement statement.now) }
{
    match statement {
        NumberedStatement::Move(from, to) => *from == read && *to == written,
        _ => false,
    }
}

// Whether the statements of a body behind the first one compute, and the last of them sends on this name.
fn computes_and_sends(body: &NumberedBlock, written: u32) -> bool
    ensures { result ≡ computes written (drop 1 (statements_of (numbered_block body.now))) }
{
    'statements: for index in 1..body.len() {
        let statement = body.at(index);
        let last = index + 1 == body.len();
        let sends = sends_on(statement, written);
        if last & sends {
            return true;
        }
        if !is_operation(statement) {
            return false;
        }
    }
    false
}

// Whether a body is what a process of a column does in a round.
fn is_round(body: &NumberedBlock, read: u32, written: u32) -> bool
    ensures { result ≡ is_round_of read written (statements_of (numbered_block body.now)) }
{
    if body.len() == 0 {
        return false;
    }
    let first = body.at(0);
    let alone = body.len() == 1;
    let moves = moves_between(first, read, written);
    let gets = gets_from(first, read);
    let computes = computes_and_sends(body, written);
    (alone & moves) | (gets & computes)
}

// Whether a process is pinned to this tile.
fn stands_at(at: Option<u8>, tile: usize) -> bool
    ensures { result ≡ pinned_to at tile }
{
    match at {
        None => false,
        Some(at) => usize::from(at) == tile,
    }
}

// Whether a path passes this tile alone.
fn is_one(path: &Path, tile: u8) -> bool
    ensures { result ≡ are_same path.now (tile ∷ []) }
{
    if path.len() != 1 {
        return false;
    }
    path.at(0) == tile
}

// Whether a path passes these two tiles, one after the other.
fn are_two(path: &Path, first: u8, second: u8) -> bool
    ensures { result ≡ are_same path.now (first ∷ second ∷ []) }
{
    if path.len() != 2 {
        return false;
    }
    let begins = path.at(0) == first;
    let ends = path.at(1) == second;
    begins & ends
}

// Whether a path passes the tiles of a column below so many processes.
fn is_path_below(path: &Path, position: u8, count: usize) -> bool
    requires { position < 4 }
    ensures { result ≡ are_same path.now (tiles_below position count) }
{
    if count < 2 {
        return are_two(path, position + 4, position + 8);
    }
    if count == 2 {
        return is_one(path, position + 8);
    }
    path.len() == 0
}

// Whether a link is pinned to pass the tiles of a column below so many processes.
fn passes_below(via: &Option<Path>, position: u8, count: usize) -> bool
    requires { position < 4 }
    ensures { result ≡ goes_by via.now (tiles_below position count) }
{
    match via {
        None => false,
        Some(path) => is_path_below(path, position, count),
    }
}

// Whether a link is pinned to go directly.
fn is_direct(via: &Option<Path>) -> bool
    ensures { result ≡ goes_by via.now [] }
{
    match via {
        None => false,
        Some(path) => path.len() == 0,
    }
}

// Whether an input goes directly and an output passes the tiles below so many processes, both at one position.
fn are_joined(count: usize, input: &PortLine, output: &PortLine) -> bool
    ensures { result ≡ ends count (port_view input.now ∷ []) (port_view output.now ∷ []) }
{
    if input.position >= 4 {
        return false;
    }
    let direct = is_direct(&input.via);
    let below = passes_below(&output.via, input.position, count);
    let same = output.position == input.position;
    direct & same & below
}

// Whether there is one input and one output, and they are joined so.
fn are_ends(count: usize, inputs: &[PortLine], outputs: &[PortLine]) -> bool
    ensures { result ≡ ends count (map port_view inputs.now) (map port_view outputs.now) }
{
    match (inputs, outputs) {
        ([input], [output]) => are_joined(count, input, output),
        _ => false,
    }
}

// Whether each channel goes directly.
fn are_direct(channels: &[ChannelLine]) -> bool
    ensures { result ≡ direct (map channel_view channels.now) }
{
    match channels {
        [] => true,
        [channel, rest @ ..] => is_direct(&channel.via) && are_direct(rest),
    }
}

// The column of the first input.
fn column_of(inputs: &[PortLine]) -> u8
    ensures { result ≡ column_of_inputs (map port_view inputs.now) }
{
    match inputs {
        [] => 0,
        [input, ..] => input.position,
    }
}

// Whether a process, which has this index, stands in its place of a column.
fn is_in_place(net: &Checked, process: &ProcessText, position: u8, index: usize) -> bool
    requires checked { IsChecked net.now }
    requires within { index < length (numbered (net_of net.now)).processes }
    ensures { result ≡ in_place index (position + 4 * index) (process_view process.now) (body_of net.now index) }
{
    let stands = stands_at(process.at, usize::from(position) + 4 * index);
    let number = index as u32;
    let round = is_round(net.process(index), number, number + 1);
    let short = lines_of(net, number) <= LINES;
    stands & round & short
}

// Whether the processes stand one below the other, each joined to the next.
fn stand_in_line(net: &Checked, position: u8) -> bool
    requires { IsChecked net.now }
    ensures { result ≡ in_line 0 position (net_of net.now).processes (numbered (net_of net.now)).processes }
{
    let processes = net.net().processes.as_slice();
    'processes: for index in 0..processes.len() {
        if !is_in_place(net, &processes[index], position, index) {
            return false;
        }
    }
    true
}

// Whether all tiles are compute tiles.
fn are_plain(tiles: &Tiles) -> bool
    ensures { IsTrue result ↔ (tiles.now ≡ plain_tiles) }
{
    // All tiles have this shape.
    tiles.shape();
    tiles.compute_count() == TILES
}

/// Whether a network is one column: one input at its top, one to three processes below it, each joined to the next, and
/// one output at its bottom.
pub fn is_column(net: &Checked) -> bool
    requires { IsChecked net.now }
    ensures { IsTrue result ↔ IsColumn (net_of net.now) }
{
    let tree = net.net();
    let count = tree.processes.len();
    let plain = are_plain(&tree.tiles);
    let ends = are_ends(count, tree.inputs.as_slice(), tree.outputs.as_slice());
    let direct = are_direct(tree.channels.as_slice());
    let line = stand_in_line(net, column_of(tree.inputs.as_slice()));
    let few = count <= 3;
    let joined = count > 0 && tree.channels.len() == count - 1;
    plain & ends & direct & line & few & joined
}
