//! What is made of the parts of an expression.
ghost use Rattle.std.specs.Prelude.{◌≡◌, OnOk, IfOk};
ghost use Rattle.lua_syntax.specs.Building as spec;

use crate::building::Building;
use crate::parts::push_at_end;
use lua_grammar::Action;
use lua_tree::{BinaryOp, Entry, Expr, UnaryOp};
use sqlite_items::{Boxed, Items};
use std::alloc::Global;
use tis_base::NoMemory;

fn index(alloc: Global, table: Expr, key: Expr, line: usize) -> Result<Expr, NoMemory>
    ensures { IfOk result (λ e. e ≡ Expr.Index table key line) }
{
    Ok(Expr::Index {
        table: Boxed::new(alloc, table)?,
        key: Boxed::new(alloc, key)?,
        line,
    })
}

fn unary(alloc: Global, op: UnaryOp, of: Expr, line: usize) -> Result<Expr, NoMemory>
    ensures { IfOk result (λ e. e ≡ Expr.Unary op of line) }
{
    Ok(Expr::Unary {
        op,
        of: Boxed::new(alloc, of)?,
        line,
    })
}

fn binary(
    alloc: Global,
    op: BinaryOp,
    left: Expr,
    right: Expr,
    line: usize,
) -> Result<Expr, NoMemory>
    ensures { IfOk result (λ e. e ≡ Expr.Binary op left right line) }
{
    Ok(Expr::Binary {
        op,
        left: Boxed::new(alloc, left)?,
        right: Boxed::new(alloc, right)?,
        line,
    })
}

impl Building {
    #[tactic(auto, unfolding(crate::specs::Building::act_expression))]
    fn make_string(&mut self, alloc: Global, line: usize) -> Result<(), NoMemory>
        ensures { OnOk result (self.new ≡ spec.act_expression (Action.Str line) self.old) }
    {
        let text = self.text(alloc);
        self.add_expression(Expr::Str { text, line })
    }

    #[tactic(auto, unfolding(crate::specs::Building::act_expression))]
    fn make_name(&mut self, alloc: Global) -> Result<(), NoMemory>
        ensures { OnOk result (self.new ≡ spec.act_expression Action.Name self.old) }
    {
        let name = self.text(alloc);
        self.add_expression(Expr::Name { name })
    }

    #[tactic(auto, unfolding(crate::specs::Building::act_expression))]
    fn make_index(&mut self, alloc: Global, line: usize) -> Result<(), NoMemory>
        ensures { OnOk result (self.new ≡ spec.act_expression (Action.Index line) self.old) }
    {
        let key = self.expression();
        let table = self.expression();
        let new = index(alloc, table, key, line)?;
        self.add_expression(new)
    }

    #[tactic(auto, unfolding(crate::specs::Building::act_expression))]
    fn make_member(&mut self, alloc: Global, line: usize) -> Result<(), NoMemory>
        ensures { OnOk result (self.new ≡ spec.act_expression (Action.Member line) self.old) }
    {
        let table = Boxed::new(alloc, self.expression())?;
        let name = self.text(alloc);
        self.add_expression(Expr::Member { table, name, line })
    }

    #[tactic(auto, unfolding(crate::specs::Building::act_expression))]
    fn make_call(&mut self, alloc: Global, line: usize) -> Result<(), NoMemory>
        ensures { OnOk result (self.new ≡ spec.act_expression (Action.Call line) self.old) }
    {
        let args = self.list(alloc);
        let name = self.text(alloc);
        self.add_expression(Expr::Call { name, args, line })
    }

    #[tactic(auto, unfolding(crate::specs::Building::act_expression))]
    fn make_math_call(&mut self, alloc: Global, line: usize) -> Result<(), NoMemory>
        ensures { OnOk result (self.new ≡ spec.act_expression (Action.MathCall line) self.old) }
    {
        let args = self.list(alloc);
        let name = self.text(alloc);
        let _library = self.expression();
        self.add_expression(Expr::MathCall { name, args, line })
    }

    #[tactic(auto, unfolding(crate::specs::Building::act_expression))]
    fn make_table_call(&mut self, alloc: Global, line: usize) -> Result<(), NoMemory>
        ensures { OnOk result (self.new ≡ spec.act_expression (Action.TableCall line) self.old) }
    {
        let args = self.list(alloc);
        let name = self.text(alloc);
        let _library = self.expression();
        self.add_expression(Expr::TableCall { name, args, line })
    }

    #[tactic(auto, unfolding(crate::specs::Building::act_expression))]
    fn make_constructor(&mut self, alloc: Global) -> Result<(), NoMemory>
        ensures { OnOk result (self.new ≡ spec.act_expression Action.Construct self.old) }
    {
        let entries = self.entries.pop_or(Items::new(alloc));
        self.add_expression(Expr::Construct { entries })
    }

    #[tactic(auto, unfolding(crate::specs::Building::act_expression))]
    fn make_unary(&mut self, alloc: Global, op: UnaryOp, line: usize) -> Result<(), NoMemory>
        ensures { OnOk result (self.new ≡ spec.act_expression (Action.Unary op line) self.old) }
    {
        let of = self.expression();
        let new = unary(alloc, op, of, line)?;
        self.add_expression(new)
    }

    #[tactic(auto, unfolding(crate::specs::Building::act_expression))]
    fn make_binary(&mut self, alloc: Global, op: BinaryOp, line: usize) -> Result<(), NoMemory>
        ensures { OnOk result (self.new ≡ spec.act_expression (Action.Binary op line) self.old) }
    {
        let right = self.expression();
        let left = self.expression();
        let new = binary(alloc, op, left, right, line)?;
        self.add_expression(new)
    }

    #[tactic(auto, unfolding(crate::specs::Building::act_expression))]
    pub fn act_expression(&mut self, alloc: Global, action: Action) -> Result<(), NoMemory>
        ensures { OnOk result (self.new ≡ spec.act_expression action self.old) }
    {
        match action {
            Action::Nil => self.add_expression(Expr::Nil),
            Action::True => self.add_expression(Expr::True),
            Action::False => self.add_expression(Expr::False),
            Action::Number(value) => self.add_expression(Expr::Number { value }),
            Action::Str(line) => self.make_string(alloc, line),
            Action::Name => self.make_name(alloc),
            Action::Index(line) => self.make_index(alloc, line),
            Action::Member(line) => self.make_member(alloc, line),
            Action::Call(line) => self.make_call(alloc, line),
            Action::MathCall(line) => self.make_math_call(alloc, line),
            Action::TableCall(line) => self.make_table_call(alloc, line),
            Action::Construct => self.make_constructor(alloc),
            Action::Unary(op, line) => self.make_unary(alloc, op, line),
            Action::Binary(op, line) => self.make_binary(alloc, op, line),
            _ => Ok(()),
        }
    }

    #[tactic(auto, unfolding(crate::specs::Building::act_list))]
    fn add_argument(&mut self, alloc: Global) -> Result<(), NoMemory>
        ensures { OnOk result (self.new ≡ spec.act_list Action.AddArgument self.old) }
    {
        let new = self.expression();
        push_at_end(alloc, &mut self.lists, new)
    }

    #[tactic(auto, unfolding(crate::specs::Building::act_list))]
    fn add_value(&mut self, alloc: Global) -> Result<(), NoMemory>
        ensures { OnOk result (self.new ≡ spec.act_list Action.AddValue self.old) }
    {
        let value = self.expression();
        self.add_entry(alloc, Entry::Value { value })
    }

    #[tactic(auto, unfolding(crate::specs::Building::act_list))]
    fn add_name(&mut self, alloc: Global) -> Result<(), NoMemory>
        ensures { OnOk result (self.new ≡ spec.act_list Action.AddName self.old) }
    {
        let name = self.text(alloc);
        let value = Expr::Name { name };
        self.add_entry(alloc, Entry::Value { value })
    }

    #[tactic(auto, unfolding(crate::specs::Building::act_list))]
    fn add_named(&mut self, alloc: Global) -> Result<(), NoMemory>
        ensures { OnOk result (self.new ≡ spec.act_list Action.AddNamed self.old) }
    {
        let value = self.expression();
        let name = self.text(alloc);
        self.add_entry(alloc, Entry::Named { name, value })
    }

    #[tactic(auto, unfolding(crate::specs::Building::act_list))]
    fn add_keyed(&mut self, alloc: Global, line: usize) -> Result<(), NoMemory>
        ensures { OnOk result (self.new ≡ spec.act_list (Action.AddKeyed line) self.old) }
    {
        let value = self.expression();
        let key = self.expression();
        self.add_entry(alloc, Entry::Keyed { key, value, line })
    }

    #[tactic(auto, unfolding(crate::specs::Building::act_list))]
    pub fn act_list(&mut self, alloc: Global, action: Action) -> Result<(), NoMemory>
        ensures { OnOk result (self.new ≡ spec.act_list action self.old) }
    {
        match action {
            Action::StartArguments => self.lists.push(Items::new(alloc)),
            Action::AddArgument => self.add_argument(alloc),
            Action::StartEntries => self.entries.push(Items::new(alloc)),
            Action::AddValue => self.add_value(alloc),
            Action::AddName => self.add_name(alloc),
            Action::AddNamed => self.add_named(alloc),
            Action::AddKeyed(line) => self.add_keyed(alloc, line),
            _ => Ok(()),
        }
    }
}
