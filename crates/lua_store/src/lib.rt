//! The values of Lua as they are held, and the tables that an evaluation makes.
//!
//! A [`SmallValue`] is copied, and never takes memory: a text is its place among the [`HeldTexts`], a table the number of its row
//! in the [`LuaTables`]. Each text is held once, so two values are compared, and a value is found at a [`Key`], without a
//! look at the bytes. Contracts see the texts as a list, and a [`Row`] as its keys with their values in some order;
//! `row_of` of `specs/Rows.antt` gives the table of `lua_machine` that a row stands for, by the texts that are held, and each
//! call says by the definitions of `lua_machine` what it makes of that table.
//!
//! ```text
//! let mut texts = HeldTexts::new(alloc);
//! let mut tables = LuaTables::new(alloc);
//! let table = tables.add(alloc)?;
//! let name = SmallValue::Text(texts.hold(alloc, b"limit")?);
//! let key = name.as_key().ok_or(LuaError::TypeFault { line })?;
//! tables.set(table, key, SmallValue::Truth(true))?;
//! ```
//!
//! A text is looked for first where the last one with its ends and its length stood, and else by a hash of its bytes; a key is looked
//! up by a hash of a few. The border of a table is kept with it: a value that is put right behind it moves it on, over the keys that
//! are there already, one look-up for each. No row and no text is given back before all of them are.
//! Faults, their lines and the units that an evaluation pays are for the caller.
#![tactic(auto)]

pub mod laws;
mod row;
mod tables;
mod texts;
mod value;

pub use row::Row;
pub use tables::LuaTables;
pub use texts::HeldTexts;
pub use value::{Key, SmallValue};
