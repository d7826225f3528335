//! The quotient of which `math.floor` gives the floor.
ghost use Rattle.std.specs.Prelude.{◌≡◌, map};
ghost use Rattle.std.specs.Option.{option_map};
ghost use Rattle.lua_machine.specs.Tree.{node_of, nodes, none, ◌and◌};
ghost use Rattle.lua_machine.specs.Turn.{quotient_of, under_floor};
ghost use Rattle.lua_operations.specs.Functions.{math_in};
ghost use Rattle.lua_frames.specs.Quotients.{quotient_in};

use lua_operations::MathFunction;
use lua_tree::{BinaryOp, Expr};

/// Its sides and its line.
#[derive(Clone, Copy)]
pub struct Quotient<'a> {
    pub left: &'a Expr,
    pub right: &'a Expr,
    pub line: usize,
}

// The quotient that the one argument is.
fn of_argument<'a>(argument: &'a Expr) -> Option<Quotient<'a>>
    ensures { option_map quotient_in result ≡ quotient_of (node_of argument.now and none) }
{
    match argument {
        Expr::Binary {
            op,
            left,
            right,
            line,
        } => match op {
            BinaryOp::Over => Some(Quotient {
                left: left.get(),
                right: right.get(),
                line: *line,
            }),
            _ => None,
        },
        _ => None,
    }
}

// The quotient that an argument is, where it is the only one.
#[tactic(auto, using(crate::proofs::Several::several))]
fn if_only<'a>(first: &'a Expr, others: &'a [Expr]) -> Option<Quotient<'a>>
    ensures { option_map quotient_in result ≡ quotient_of (node_of first.now and nodes (map node_of others.now)) }
{
    match others.split_first() {
        Some(_) => None,
        None => of_argument(first),
    }
}

// The quotient that the arguments are as a whole.
fn whole_quotient<'a>(args: &'a [Expr]) -> Option<Quotient<'a>>
    ensures { option_map quotient_in result ≡ quotient_of (nodes (map node_of args.now)) }
{
    match args.split_first() {
        Some((first, others)) => if_only(first, others),
        None => None,
    }
}

/// The quotient that is the whole argument of `math.floor`.
pub(crate) fn floored<'a>(function: MathFunction, args: &'a [Expr]) -> Option<Quotient<'a>>
    ensures { option_map quotient_in result ≡ under_floor (math_in function) (nodes (map node_of args.now)) }
{
    match function {
        MathFunction::Floor => whole_quotient(args),
        _ => None,
    }
}
