//! The canonical text of a network.
ghost use Rattle.std.specs.Prelude.{◌≡◌, ◌+◌, ◌*◌, ◌<◌, ◌≤◌, ◌++◌, [], ◌∷◌, map, flat_map, take, drop, decimal, codes, OnOk};
ghost use Rattle.std.specs.Fmt.{signed_decimal};
ghost use Rattle.tis_base.specs.Answers.{Gives};
ghost use Rattle.net_tree.specs.NetText.{kind_letter as letter_of, row_words, words_behind, var_word as word_of_var, test_word as word_of_test, line_text, lines_text, via_words, at_words, port_line, channel_line, process_line, process_lines, statement_line, inner_lines, else_lines, end_line, block_lines, tiles_line, version_line, net_text, net_lines};
ghost use Rattle.net_tree.specs.View.{block_view, statement_view, port_view, channel_view, process_view, net_view};

use crate::name::Name;
use crate::path::Path;
use crate::tree::{Block, ChannelLine, Net, PortLine, ProcessText, Statement, Test, Var};
use std::alloc::Global;
use tis_base::{NoMemory, Tile, TileKind, Tiles, Value, push_number};

// ---- lines of words

// Writes a line of one word behind what is there.
fn push_one(out: &mut Vec<u8>, word: &[u8]) -> Result<(), NoMemory>
    ensures { OnOk result (out.new.items ≡ out.old.items ++ line_text (word.now ∷ [])) }
{
    out.extend_from_slice(word)?;
    Ok(out.push(b'\n')?)
}

// Writes a word and a blank behind what is there.
fn push_word(out: &mut Vec<u8>, word: &[u8]) -> Result<(), NoMemory>
    ensures { OnOk result (out.new.items ≡ out.old.items ++ (word.now ++ 32 ∷ [])) }
{
    out.extend_from_slice(word)?;
    Ok(out.push(b' ')?)
}

// Writes a line of two words behind what is there.
fn push_two(out: &mut Vec<u8>, first: &[u8], second: &[u8]) -> Result<(), NoMemory>
    ensures { OnOk result (out.new.items ≡ out.old.items ++ line_text (first.now ∷ second.now ∷ [])) }
{
    push_word(out, first)?;
    push_one(out, second)
}

// Writes a line of three words behind what is there.
fn push_three(out: &mut Vec<u8>, first: &[u8], second: &[u8], third: &[u8]) -> Result<(), NoMemory>
    ensures { OnOk result (out.new.items ≡ out.old.items ++ line_text (first.now ∷ second.now ∷ third.now ∷ [])) }
{
    push_word(out, first)?;
    push_two(out, second, third)
}

// Writes a line of two words and a number behind what is there.
fn push_with_number(
    out: &mut Vec<u8>,
    first: &[u8],
    second: &[u8],
    number: Value,
) -> Result<(), NoMemory>
    ensures { OnOk result (out.new.items ≡ out.old.items ++ line_text (first.now ∷ second.now ∷ signed_decimal number ∷ [])) }
{
    push_word(out, first)?;
    push_word(out, second)?;
    push_number(out, number.get())?;
    Ok(out.push(b'\n')?)
}

// ---- statements

// The word of a variable.
fn var_text(var: Var) -> &'static [u8]
    ensures { result.now ≡ word_of_var var }
{
    match var {
        Var::X => b"x",
        Var::Y => b"y",
    }
}

// The word of a comparison with 0.
fn test_text(test: Test) -> &'static [u8]
    ensures { result.now ≡ word_of_test test }
{
    match test {
        Test::Zero => b"=",
        Test::NotZero => b"!=",
        Test::Negative => b"<",
        Test::Positive => b">",
        Test::NotPositive => b"<=",
        Test::NotNegative => b">=",
    }
}

// Writes the first line of a statement that tests behind what is there.
fn push_test(out: &mut Vec<u8>, word: &[u8], var: Var, test: Test) -> Result<(), NoMemory>
    ensures { OnOk result (out.new.items ≡ out.old.items ++ line_text (word.now ∷ word_of_var var ∷ word_of_test test ∷ codes "0" ∷ [])) }
{
    push_word(out, word)?;
    push_three(out, var_text(var), test_text(test), b"0")
}

// Writes the first line of a statement behind what is there.
fn push_first(out: &mut Vec<u8>, statement: &Statement) -> Result<(), NoMemory>
    ensures { OnOk result (out.new.items ≡ out.old.items ++ line_text (statement_line (statement_view statement.now))) }
{
    match statement {
        Statement::Get(name, var) => push_three(out, b"get", name.bytes(), var_text(*var)),
        Statement::GetAdd(name, var) => push_three(out, b"getadd", name.bytes(), var_text(*var)),
        Statement::GetSub(name, var) => push_three(out, b"getsub", name.bytes(), var_text(*var)),
        Statement::Put(name, var) => push_three(out, b"put", name.bytes(), var_text(*var)),
        Statement::PutNumber(name, number) => push_with_number(out, b"put", name.bytes(), *number),
        Statement::Move(read, written) => push_three(out, b"move", read.bytes(), written.bytes()),
        Statement::Set(var, number) => push_with_number(out, b"set", var_text(*var), *number),
        Statement::Add(var, number) => push_with_number(out, b"add", var_text(*var), *number),
        Statement::Sub(var, number) => push_with_number(out, b"sub", var_text(*var), *number),
        Statement::Neg(var) => push_two(out, b"neg", var_text(*var)),
        Statement::Double(var) => push_two(out, b"double", var_text(*var)),
        Statement::Copy(to, from) => push_three(out, b"copy", var_text(*to), var_text(*from)),
        Statement::Swap => push_one(out, b"swap"),
        Statement::If(var, test, _, _) => push_test(out, b"if", *var, *test),
        Statement::While(var, test, _) => push_test(out, b"while", *var, *test),
        Statement::Count(var, _) => push_two(out, b"count", var_text(*var)),
    }
}

// Writes the lines of a block and `end` behind what is there.
#[cycle(write)]
fn push_closed(out: &mut Vec<u8>, block: &Block) -> Result<(), NoMemory>
    ensures { OnOk result (out.new.items ≡ out.old.items ++ lines_text (block_lines (block_view block.now) ++ end_line ∷ [])) }
{
    push_block(out, block)?;
    push_one(out, b"end")
}

// Writes the blocks of a statement and its `end` behind what is there, where it has any.
#[cycle(write)]
fn push_inner(out: &mut Vec<u8>, statement: &Statement) -> Result<(), NoMemory>
    ensures { OnOk result (out.new.items ≡ out.old.items ++ lines_text (inner_lines (statement_view statement.now))) }
{
    match statement {
        Statement::If(_, _, first, second) => {
            push_block(out, first)?;
            push_else(out, second)?;
            push_one(out, b"end")
        }
        Statement::While(_, _, body) => push_closed(out, body),
        Statement::Count(_, body) => push_closed(out, body),
        _ => Ok(()),
    }
}

// Writes `else` and the second block of an `if` behind what is there, where it has statements.
#[cycle(write)]
fn push_else(out: &mut Vec<u8>, block: &Block) -> Result<(), NoMemory>
    ensures { OnOk result (out.new.items ≡ out.old.items ++ lines_text (else_lines (block_view block.now))) }
{
    if block.len() == 0 {
        return Ok(());
    }
    push_one(out, b"else")?;
    push_block(out, block)
}

// Writes a statement behind what is there.
#[cycle(write)]
fn push_statement(out: &mut Vec<u8>, statement: &Statement) -> Result<(), NoMemory>
    ensures { OnOk result (out.new.items ≡ out.old.items ++ lines_text (statement_line (statement_view statement.now) ∷ inner_lines (statement_view statement.now))) }
{
    push_first(out, statement)?;
    push_inner(out, statement)
}

// Writes the statements of a block behind what is there.
#[cycle(write)]
fn push_block(out: &mut Vec<u8>, block: &Block) -> Result<(), NoMemory>
    ensures { OnOk result (out.new.items ≡ out.old.items ++ lines_text (block_lines (block_view block.now))) }
{
    'statements: for numbered in block.statements.as_slice() {
        push_statement(out, &numbered.statement)?;
    }
    Ok(())
}

// ---- links and places

// Writes a blank and a number behind what is there.
fn push_blank_and_number(out: &mut Vec<u8>, number: u8) -> Result<(), NoMemory>
    ensures { OnOk result (out.new.items ≡ out.old.items ++ 32 ∷ decimal number) }
{
    out.push(b' ')?;
    push_number(out, i64::from(number))
}

// Writes the tiles of a path behind what is there.
fn push_path(out: &mut Vec<u8>, path: &Path) -> Result<(), NoMemory>
    ensures { OnOk result (out.new.items ≡ out.old.items ++ words_behind (map decimal path.now)) }
{
    'tiles: for tile in path.tiles() {
        push_blank_and_number(out, *tile)?;
    }
    Ok(())
}

// Writes how a link goes behind what is there, where it is pinned.
fn push_via(out: &mut Vec<u8>, via: &Option<Path>) -> Result<(), NoMemory>
    ensures { OnOk result (out.new.items ≡ out.old.items ++ words_behind (via_words via.now)) }
{
    match via {
        None => Ok(()),
        Some(path) => {
            out.extend_from_slice(b" via")?;
            push_path(out, path)
        }
    }
}

// Writes where a process stands behind what is there, where it is pinned.
fn push_at(out: &mut Vec<u8>, at: Option<u8>) -> Result<(), NoMemory>
    ensures { OnOk result (out.new.items ≡ out.old.items ++ words_behind (at_words at)) }
{
    match at {
        None => Ok(()),
        Some(tile) => {
            out.extend_from_slice(b" at")?;
            push_blank_and_number(out, tile)
        }
    }
}

// Writes the line of an input or an output behind what is there.
#[tactic(auto, using(crate::proofs::Writing::join_behind))]
fn push_port(out: &mut Vec<u8>, side: &[u8], port: &PortLine) -> Result<(), NoMemory>
    ensures { OnOk result (out.new.items ≡ out.old.items ++ line_text (port_line side.now (port_view port.now))) }
{
    push_word(out, side)?;
    push_word(out, port.name.bytes())?;
    out.extend_from_slice(b"at")?;
    push_blank_and_number(out, port.position)?;
    push_via(out, &port.via)?;
    Ok(out.push(b'\n')?)
}

// Writes the line of a channel behind what is there.
#[tactic(auto, using(crate::proofs::Writing::join_behind))]
fn push_channel(out: &mut Vec<u8>, channel: &ChannelLine) -> Result<(), NoMemory>
    ensures { OnOk result (out.new.items ≡ out.old.items ++ line_text (channel_line (channel_view channel.now))) }
{
    push_word(out, b"channel")?;
    out.extend_from_slice(channel.name.bytes())?;
    push_via(out, &channel.via)?;
    Ok(out.push(b'\n')?)
}

// Writes the first line of a process behind what is there.
#[tactic(auto, using(crate::proofs::Writing::join_behind))]
fn push_process_line(out: &mut Vec<u8>, name: &Name, at: Option<u8>) -> Result<(), NoMemory>
    ensures { OnOk result (out.new.items ≡ out.old.items ++ line_text (process_line name.now at)) }
{
    push_word(out, b"process")?;
    out.extend_from_slice(name.bytes())?;
    push_at(out, at)?;
    Ok(out.push(b'\n')?)
}

// ---- lists of lines

// Writes the lines of inputs or outputs behind what is there.
fn push_ports(out: &mut Vec<u8>, side: &[u8], ports: &[PortLine]) -> Result<(), NoMemory>
    ensures { OnOk result (out.new.items ≡ out.old.items ++ lines_text (map (port_line side.now) (map port_view ports.now))) }
{
    'ports: for port in ports {
        push_port(out, side, port)?;
    }
    Ok(())
}

// Writes the lines of channels behind what is there.
fn push_channels(out: &mut Vec<u8>, channels: &[ChannelLine]) -> Result<(), NoMemory>
    ensures { OnOk result (out.new.items ≡ out.old.items ++ lines_text (map channel_line (map channel_view channels.now))) }
{
    'channels: for channel in channels {
        push_channel(out, channel)?;
    }
    Ok(())
}

// Writes the lines of a process behind what is there.
fn push_process(out: &mut Vec<u8>, process: &ProcessText) -> Result<(), NoMemory>
    ensures { OnOk result (out.new.items ≡ out.old.items ++ lines_text (process_lines (process_view process.now))) }
{
    push_process_line(out, &process.name, process.at)?;
    push_block(out, &process.body)?;
    push_one(out, b"end")
}

// Writes the lines of processes behind what is there.
fn push_processes(out: &mut Vec<u8>, processes: &[ProcessText]) -> Result<(), NoMemory>
    ensures { OnOk result (out.new.items ≡ out.old.items ++ lines_text (flat_map process_lines (map process_view processes.now))) }
{
    'processes: for process in processes {
        push_process(out, process)?;
    }
    Ok(())
}

// ---- the tiles

// The letter of a kind of tile.
fn kind_letter(kind: TileKind) -> u8
    ensures { result ≡ letter_of kind }
{
    match kind {
        TileKind::Compute => b'C',
        TileKind::Memory => b'M',
        TileKind::Damaged => b'D',
    }
}

// Writes a blank and the letters of a row behind what is there.
fn push_row(out: &mut Vec<u8>, tiles: &Tiles, row: u8) -> Result<(), NoMemory>
    requires { row < tiles.now.shape.rows }
    ensures { OnOk result (out.new.items ≡ out.old.items ++ 32 ∷ map letter_of (take tiles.now.shape.columns (drop (row * tiles.now.shape.columns) tiles.now.kinds))) }
{
    let columns = tiles.shape().columns;
    out.push(b' ')?;
    'letters: for column in 0..columns {
        let tile = Tile {
            number: row * columns + column,
        };
        out.push(kind_letter(tiles.kind(tile)))?;
    }
    Ok(())
}

// Writes the rows behind what is there.
fn push_rows(out: &mut Vec<u8>, tiles: &Tiles) -> Result<(), NoMemory>
    ensures { OnOk result (out.new.items ≡ out.old.items ++ words_behind (row_words tiles.now.shape.columns tiles.now.shape.rows tiles.now.kinds)) }
{
    'rows: for row in 0..tiles.shape().rows {
        push_row(out, tiles, row)?;
    }
    Ok(())
}

// Writes the first two lines behind what is there.
#[tactic(auto, using(crate::proofs::Writing::join_behind))]
fn push_head(out: &mut Vec<u8>, version: u8, tiles: &Tiles) -> Result<(), NoMemory>
    ensures { OnOk result (out.new.items ≡ out.old.items ++ (line_text (version_line version) ++ line_text (tiles_line tiles.now))) }
{
    out.extend_from_slice(b"net")?;
    push_blank_and_number(out, version)?;
    out.extend_from_slice(b"\ntiles")?;
    push_rows(out, tiles)?;
    Ok(out.push(b'\n')?)
}

/// The canonical text of a network: its version, its tiles, its inputs, its outputs, its channels and
/// its processes, in this order, a line each, and the statements of a process behind its line.
pub fn write_net(alloc: Global, net: &Net) -> Result<Vec<u8>, NoMemory>
    ensures { Gives (λ text. text.items) result (net_text (net_view net.now)) }
{
    let mut out = Vec::new(alloc);
    push_head(&mut out, net.version, &net.tiles)?;
    push_ports(&mut out, b"input", &net.inputs)?;
    push_ports(&mut out, b"output", &net.outputs)?;
    push_channels(&mut out, &net.channels)?;
    push_processes(&mut out, &net.processes)?;
    Ok(out)
}
