//! What waits.
ghost use Rattle.std.specs.Prelude.{◌≡◌, [], ◌∷◌, ◌++◌, OnOk, OnErr};

use crate::functions::Function;
use crate::parts::Parts;
use lua_operations::{MathFunction, TableFunction};
use lua_tree::{Arm, BinaryOp, Entry, Expr, Item, LuaBlock, LuaStatement, UnaryOp};
use tis_base::NoMemory;

/// What is made of the values of several parts. The last number is the line.
#[derive(Clone, Copy)]
pub enum Making<'a> {
    Indexes(usize),
    Selects(&'a [u8], usize),
    Unary(UnaryOp, usize),
    Binary(BinaryOp, usize),
    Calls(Function<'a>, usize),
    Math(MathFunction, usize),
    Floors(usize),
    Tables(TableFunction, usize),
    /// An entry with a key: the row, the number of the next entry without one, and the entries behind it.
    Stores(usize, usize, &'a [Entry], usize),
    Puts(usize),
    PutsMember(&'a [u8], usize),
    /// The bounds of a `for`.
    Loops(&'a [u8], &'a LuaBlock, usize),
}

/// A frame. Values, the locals of a caller and the bounds of a loop wait beside it.
#[derive(Clone, Copy)]
pub enum Frame<'a> {
    /// So many values are there, and these parts are left.
    Part(Making<'a>, usize, Parts<'a>),
    LeftSide(BinaryOp, &'a Expr),
    NextEntry(usize, usize, &'a [Entry]),
    NamedEntry(usize, usize, &'a [u8], &'a [Entry]),
    Declares(&'a [u8]),
    Assigns(&'a [u8]),
    Drops,
    ReturnsIt,
    ArmTest(&'a LuaBlock, &'a [Arm], &'a Option<LuaBlock>),
    WhileTest(&'a Expr, &'a LuaBlock),
    /// With the number of locals around the block.
    RepeatTest(usize, &'a LuaBlock, &'a Expr),
    Others(&'a [LuaStatement]),
    Inner(usize),
    WhileBody(usize, &'a Expr, &'a LuaBlock),
    RepeatBody(usize, &'a LuaBlock, &'a Expr),
    ForBody(usize, &'a [u8], &'a LuaBlock),
    /// With the number of calls that were open there.
    Caller(usize),
    Items(&'a [Item]),
}

/// One more frame, which is the innermost.
pub(crate) fn push_frame<'a>(frames: &mut Vec<Frame<'a>>, frame: Frame<'a>) -> Result<(), NoMemory>
    ensures { OnOk result (frames.new.items ≡ frames.old.items ++ frame.entry ∷ []) }
{
    frames.push(frame)?;
    Ok(())
}
