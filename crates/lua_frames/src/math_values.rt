//! How calls of `math` are evaluated where they stand.
ghost use Rattle.std.specs.Prelude.{map};
ghost use Rattle.lua_machine.specs.Machine as machine;
ghost use Rattle.lua_machine.specs.Tree as t;
ghost use Rattle.lua_machine.specs.Tree.{node_of, nodes};
ghost use Rattle.lua_operations.specs.Functions.{math_in};
ghost use Rattle.lua_frames.specs.Quotients.{quotient_in};
ghost use Rattle.lua_frames.specs.Standing.{Evaluates, evaluation, floor_calling, gathering, math_calling, operating, sides_calling, unknown_calling};

use crate::frame::Making;
use crate::machine::Machine;
use crate::parts::Parts;
use crate::quotient::{Quotient, floored};
use crate::valued::Valued;
use lua_machine::LuaError;
use lua_operations::{MathFunction, math_function};
use lua_tree::Expr;
use std::alloc::Global;

impl<'a> Machine<'a> {
    // Evaluates the arguments one after the other, and calls the function.
    #[cycle(values)]
    #[inline(always)]
    fn all_values(
        &mut self,
        alloc: Global,
        depth: u32,
        function: MathFunction,
        args: &'a [Expr],
        line: usize,
    ) -> Valued
        ensures { Evaluates result (gathering (machine.Math (math_in function) line) 0 (nodes (map node_of args.now)) self.old) self.old self.new }
    {
        let mut left = args;
        let mut count: usize = 0;
        'parts: while let Some((next, others)) = left.split_first() {
            match count.checked_add(1) {
                Some(more) => match self.part_value(
                    alloc,
                    depth,
                    Making::Math(function, line),
                    count,
                    next,
                    Parts::Several(others),
                ) {
                    Valued::Given => count = more,
                    Valued::Waits => return Valued::Waits,
                    Valued::Stopped => return Valued::Stopped,
                },
                None => {
                    self.fault = LuaError::NoMemory;
                    return Valued::Stopped;
                }
            }
            left = others;
        }
        match self.state.math(count, function, line) {
            Ok(()) => Valued::Given,
            Err(why) => {
                self.fault = why;
                Valued::Stopped
            }
        }
    }

    // Pays a call, and evaluates it.
    #[cycle(values)]
    #[inline(always)]
    fn function_value(
        &mut self,
        alloc: Global,
        depth: u32,
        function: MathFunction,
        args: &'a [Expr],
        line: usize,
    ) -> Valued
        ensures { Evaluates result (operating (machine.Math (math_in function) line) (nodes (map node_of args.now)) self.old) self.old self.new }
    {
        match self.units.pay() {
            Ok(()) => self.all_values(alloc, depth, function, args, line),
            Err(why) => {
                self.fault = why;
                Valued::Stopped
            }
        }
    }

    // Evaluates both sides of a quotient, and takes its floor.
    #[cycle(values)]
    #[inline(always)]
    fn sides_value(&mut self, alloc: Global, depth: u32, of: Quotient<'a>) -> Valued
        ensures { Evaluates result (sides_calling (quotient_in of.entry) self.old) self.old self.new }
    {
        match self.part_value(
            alloc,
            depth,
            Making::Floors(of.line),
            0,
            of.left,
            Parts::One(of.right),
        ) {
            Valued::Given => match self.part_value(
                alloc,
                depth,
                Making::Floors(of.line),
                1,
                of.right,
                Parts::Done,
            ) {
                Valued::Given => match self.state.floors(2, of.line) {
                    Ok(()) => Valued::Given,
                    Err(why) => {
                        self.fault = why;
                        Valued::Stopped
                    }
                },
                Valued::Waits => Valued::Waits,
                Valued::Stopped => Valued::Stopped,
            },
            Valued::Waits => Valued::Waits,
            Valued::Stopped => Valued::Stopped,
        }
    }

    // Pays the floor of a quotient, which pays its unit too, and evaluates it.
    #[cycle(values)]
    #[inline(always)]
    fn floor_value(&mut self, alloc: Global, depth: u32, of: Quotient<'a>) -> Valued
        ensures { Evaluates result (floor_calling (quotient_in of.entry) self.old) self.old self.new }
    {
        match self.units.pay_all(2) {
            Ok(()) => self.sides_value(alloc, depth, of),
            Err(why) => {
                self.fault = why;
                Valued::Stopped
            }
        }
    }

    // Evaluates a call of a function of `math`.
    #[cycle(values)]
    #[inline(always)]
    fn math_value(
        &mut self,
        alloc: Global,
        depth: u32,
        function: MathFunction,
        args: &'a [Expr],
        line: usize,
    ) -> Valued
        ensures { Evaluates result (math_calling (math_in function) (nodes (map node_of args.now)) line self.old) self.old self.new }
    {
        match floored(function, args) {
            Some(of) => self.floor_value(alloc, depth, of),
            None => self.function_value(alloc, depth, function, args, line),
        }
    }

    // Pays a call of a function that isn't there.
    fn unknown_value(&mut self, line: usize) -> Valued
        ensures { Evaluates result (unknown_calling line self.old) self.old self.new }
    {
        match self.units.pay() {
            Ok(()) => {
                self.fault = LuaError::UnknownName { line };
                Valued::Stopped
            }
            Err(why) => {
                self.fault = why;
                Valued::Stopped
            }
        }
    }

    /// Evaluates a call of `math`, whose name is looked at before its arguments.
    #[cycle(values)]
    #[inline(never)]
    pub(crate) fn call_value(
        &mut self,
        alloc: Global,
        depth: u32,
        name: &'a [u8],
        args: &'a [Expr],
        line: usize,
    ) -> Valued
        ensures { Evaluates result (evaluation (t.MathCall name.now (nodes (map node_of args.now)) line) self.old) self.old self.new }
    {
        match math_function(name) {
            Some(function) => self.math_value(alloc, depth, function, args, line),
            None => self.unknown_value(line),
        }
    }
}
