//! What is made of the parts of a statement, and the items of the chunk.
ghost use Rattle.std.specs.Prelude.{◌≡◌, OnOk};
ghost use Rattle.lua_syntax.specs.Building as spec;

use crate::building::Building;
use crate::parts::push_at_end;
use lua_grammar::Action;
use lua_tree::{Arm, Item, LuaStatement};
use sqlite_items::Items;
use std::alloc::Global;
use std::mem;
use tis_base::NoMemory;

impl Building {
    #[tactic(auto, unfolding(crate::specs::Building::act_statement))]
    fn local_with(&mut self, alloc: Global) -> Result<(), NoMemory>
        ensures { OnOk result (self.new ≡ spec.act_statement Action.LocalWith self.old) }
    {
        let value = Some(self.expression());
        let name = self.text(alloc);
        self.add_statement(alloc, LuaStatement::Local { name, value })
    }

    #[tactic(auto, unfolding(crate::specs::Building::act_statement))]
    fn local_without(&mut self, alloc: Global) -> Result<(), NoMemory>
        ensures { OnOk result (self.new ≡ spec.act_statement Action.LocalWithout self.old) }
    {
        let name = self.text(alloc);
        self.add_statement(alloc, LuaStatement::Local { name, value: None })
    }

    #[tactic(auto, unfolding(crate::specs::Building::act_statement))]
    fn assign(&mut self, alloc: Global) -> Result<(), NoMemory>
        ensures { OnOk result (self.new ≡ spec.act_statement Action.Assign self.old) }
    {
        let value = self.expression();
        let name = self.text(alloc);
        self.add_statement(alloc, LuaStatement::Assign { name, value })
    }

    #[tactic(auto, unfolding(crate::specs::Building::act_statement))]
    fn set_index(&mut self, alloc: Global, line: usize) -> Result<(), NoMemory>
        ensures { OnOk result (self.new ≡ spec.act_statement (Action.SetIndex line) self.old) }
    {
        let value = self.expression();
        let key = self.expression();
        let table = self.expression();
        let new = LuaStatement::SetIndex {
            table,
            key,
            value,
            line,
        };
        self.add_statement(alloc, new)
    }

    #[tactic(auto, unfolding(crate::specs::Building::act_statement))]
    fn set_member(&mut self, alloc: Global, line: usize) -> Result<(), NoMemory>
        ensures { OnOk result (self.new ≡ spec.act_statement (Action.SetMember line) self.old) }
    {
        let value = self.expression();
        let table = self.expression();
        let name = self.text(alloc);
        let new = LuaStatement::SetMember {
            table,
            name,
            value,
            line,
        };
        self.add_statement(alloc, new)
    }

    #[tactic(auto, unfolding(crate::specs::Building::act_statement))]
    fn call_statement(&mut self, alloc: Global) -> Result<(), NoMemory>
        ensures { OnOk result (self.new ≡ spec.act_statement Action.CallStatement self.old) }
    {
        let call = self.expression();
        self.add_statement(alloc, LuaStatement::Call { call })
    }

    #[tactic(auto, unfolding(crate::specs::Building::act_statement))]
    fn return_with(&mut self, alloc: Global) -> Result<(), NoMemory>
        ensures { OnOk result (self.new ≡ spec.act_statement Action.ReturnWith self.old) }
    {
        let value = Some(self.expression());
        self.add_statement(alloc, LuaStatement::Return { value })
    }

    #[tactic(auto, unfolding(crate::specs::Building::act_statement))]
    pub fn act_statement(&mut self, alloc: Global, action: Action) -> Result<(), NoMemory>
        ensures { OnOk result (self.new ≡ spec.act_statement action self.old) }
    {
        match action {
            Action::LocalWith => self.local_with(alloc),
            Action::LocalWithout => self.local_without(alloc),
            Action::Assign => self.assign(alloc),
            Action::SetIndex(line) => self.set_index(alloc, line),
            Action::SetMember(line) => self.set_member(alloc, line),
            Action::CallStatement => self.call_statement(alloc),
            Action::Break => self.add_statement(alloc, LuaStatement::Break),
            Action::ReturnWith => self.return_with(alloc),
            Action::ReturnWithout => {
                self.add_statement(alloc, LuaStatement::Return { value: None })
            }
            _ => Ok(()),
        }
    }

    #[tactic(auto, unfolding(crate::specs::Building::act_block))]
    fn add_arm(&mut self, alloc: Global) -> Result<(), NoMemory>
        ensures { OnOk result (self.new ≡ spec.act_block Action.AddArm self.old) }
    {
        let body = self.block(alloc);
        let test = self.expression();
        push_at_end(alloc, &mut self.arms, Arm { test, body })
    }

    #[tactic(auto, unfolding(crate::specs::Building::act_block))]
    fn if_without(&mut self, alloc: Global) -> Result<(), NoMemory>
        ensures { OnOk result (self.new ≡ spec.act_block Action.If self.old) }
    {
        let arms = self.arms(alloc);
        let new = LuaStatement::If {
            arms,
            otherwise: None,
        };
        self.add_statement(alloc, new)
    }

    #[tactic(auto, unfolding(crate::specs::Building::act_block))]
    fn if_else(&mut self, alloc: Global) -> Result<(), NoMemory>
        ensures { OnOk result (self.new ≡ spec.act_block Action.IfElse self.old) }
    {
        let otherwise = Some(self.block(alloc));
        let arms = self.arms(alloc);
        self.add_statement(alloc, LuaStatement::If { arms, otherwise })
    }

    #[tactic(auto, unfolding(crate::specs::Building::act_block))]
    fn make_while(&mut self, alloc: Global) -> Result<(), NoMemory>
        ensures { OnOk result (self.new ≡ spec.act_block Action.While self.old) }
    {
        let body = self.block(alloc);
        let test = self.expression();
        self.add_statement(alloc, LuaStatement::While { test, body })
    }

    #[tactic(auto, unfolding(crate::specs::Building::act_block))]
    fn make_repeat(&mut self, alloc: Global) -> Result<(), NoMemory>
        ensures { OnOk result (self.new ≡ spec.act_block Action.Repeat self.old) }
    {
        let body = self.block(alloc);
        let test = self.expression();
        self.add_statement(alloc, LuaStatement::Repeat { body, test })
    }

    #[tactic(auto, unfolding(crate::specs::Building::act_block))]
    fn make_for(&mut self, alloc: Global, line: usize) -> Result<(), NoMemory>
        ensures { OnOk result (self.new ≡ spec.act_block (Action.For line) self.old) }
    {
        let body = self.block(alloc);
        let last = self.expression();
        let first = self.expression();
        let name = self.text(alloc);
        let step = None;
        let new = LuaStatement::For {
            name,
            first,
            last,
            step,
            body,
            line,
        };
        self.add_statement(alloc, new)
    }

    #[tactic(auto, unfolding(crate::specs::Building::act_block))]
    fn make_for_step(&mut self, alloc: Global, line: usize) -> Result<(), NoMemory>
        ensures { OnOk result (self.new ≡ spec.act_block (Action.ForStep line) self.old) }
    {
        let body = self.block(alloc);
        let step = Some(self.expression());
        let last = self.expression();
        let first = self.expression();
        let name = self.text(alloc);
        let new = LuaStatement::For {
            name,
            first,
            last,
            step,
            body,
            line,
        };
        self.add_statement(alloc, new)
    }

    #[tactic(auto, unfolding(crate::specs::Building::act_block))]
    fn make_do(&mut self, alloc: Global) -> Result<(), NoMemory>
        ensures { OnOk result (self.new ≡ spec.act_block Action.Do self.old) }
    {
        let body = self.block(alloc);
        self.add_statement(alloc, LuaStatement::Do { body })
    }

    #[tactic(auto, unfolding(crate::specs::Building::act_block))]
    pub fn act_block(&mut self, alloc: Global, action: Action) -> Result<(), NoMemory>
        ensures { OnOk result (self.new ≡ spec.act_block action self.old) }
    {
        match action {
            Action::StartBlock => self.blocks.push(Items::new(alloc)),
            Action::StartArms => self.arms.push(Items::new(alloc)),
            Action::AddArm => self.add_arm(alloc),
            Action::If => self.if_without(alloc),
            Action::IfElse => self.if_else(alloc),
            Action::While => self.make_while(alloc),
            Action::Repeat => self.make_repeat(alloc),
            Action::For(line) => self.make_for(alloc, line),
            Action::ForStep(line) => self.make_for_step(alloc, line),
            Action::Do => self.make_do(alloc),
            _ => Ok(()),
        }
    }

    #[tactic(auto, unfolding(crate::specs::Building::act_item))]
    fn add_parameter(&mut self, alloc: Global) -> Result<(), NoMemory>
        ensures { OnOk result (self.new ≡ spec.act_item Action.AddParameter self.old) }
    {
        let name = self.text(alloc);
        self.params.push(name)?;
        Ok(())
    }

    #[tactic(auto, unfolding(crate::specs::Building::act_item))]
    fn make_function(&mut self, alloc: Global) -> Result<(), NoMemory>
        ensures { OnOk result (self.new ≡ spec.act_item Action.Function self.old) }
    {
        let body = self.block(alloc);
        let name = self.text(alloc);
        let params = mem::replace(&mut self.params, Items::new(alloc));
        self.items.push(Item::Function { name, params, body })?;
        Ok(())
    }

    #[tactic(auto, unfolding(crate::specs::Building::act_item))]
    fn make_assignment(&mut self, alloc: Global) -> Result<(), NoMemory>
        ensures { OnOk result (self.new ≡ spec.act_item Action.Assignment self.old) }
    {
        let value = self.expression();
        let name = self.text(alloc);
        self.items.push(Item::Assign { name, value })?;
        Ok(())
    }

    #[tactic(auto, unfolding(crate::specs::Building::act_item))]
    fn act_item(&mut self, alloc: Global, action: Action) -> Result<(), NoMemory>
        ensures { OnOk result (self.new ≡ spec.act_item action self.old) }
    {
        match action {
            Action::StartParameters => {
                self.params = Items::new(alloc);
                Ok(())
            }
            Action::AddParameter => self.add_parameter(alloc),
            Action::Function => self.make_function(alloc),
            Action::Assignment => self.make_assignment(alloc),
            Action::Restore(count) => {
                self.opened = count;
                Ok(())
            }
            _ => Ok(()),
        }
    }

    /// Does an action.
    #[tactic(auto, unfolding(crate::specs::Building::act))]
    pub fn act(&mut self, alloc: Global, action: Action) -> Result<(), NoMemory>
        ensures { OnOk result (self.new ≡ spec.act action self.old) }
    {
        self.act_expression(alloc, action)?;
        self.act_list(alloc, action)?;
        self.act_statement(alloc, action)?;
        self.act_block(alloc, action)?;
        self.act_item(alloc, action)
    }
}
