//! The texts that are held, each once.
ghost use Rattle.std.specs.Prelude.{◌≡◌, ◌<◌, [], length, get_or, map, IfOk, IsTrue, OnOk, OnErr};
ghost use Rattle.lua_store.specs.Values.{AreApart, with_text};

use indexmap::IndexSet;
use std::alloc::Global;
use std::marker::Model;
use tis_base::NoMemory;

/// Texts, each at a place of its own, which it keeps. A hint is the place where a text of its number stood last.
#[derive(Drop)]
pub struct HeldTexts {
    texts: IndexSet<Vec<u8>>,
    hints: [usize; 256],
}

impl Model for HeldTexts {
    ghost use Rattle.std.specs.Prelude.{ℕ, List, map};
    ghost use Rattle.lua_store.specs.Values.{AreApart};

    ghost Value = { List (List ℕ) };

    ghost view = { λ t. map (λ text. text.items) t.texts.keys };

    ghost invariant = { λ t. AreApart (map (λ text. text.items) t.texts.keys) };
}

// A number below 256 that most names have for themselves.
#[inline(always)]
fn number_of(bytes: &[u8]) -> usize
    ensures { result < 256 }
{
    match bytes {
        [first, .., last] => ends_number(*first, *last, bytes.len()),
        [only] => usize::from(*only),
        [] => 0,
    }
}

// The same of the first and the last byte and the length.
#[inline(always)]
fn ends_number(first: u8, last: u8, len: usize) -> usize
    ensures { result < 256 }
{
    let ends = first.wrapping_mul(7).wrapping_add(last.wrapping_mul(31));
    (usize::from(ends) + len % 256) % 256
}

// Whether a text stands at a place.
#[inline(always)]
fn stands_at(texts: &[Vec<u8>], at: usize, bytes: &[u8]) -> bool
    ensures { IsTrue result → (at < length (map (λ text. text.items) texts.now)) × (get_or (map (λ text. text.items) texts.now) at [] ≡ bytes.now) }
{
    if at < texts.len() {
        texts[at].as_slice() == bytes
    } else {
        false
    }
}

fn no_hints() -> [usize; 256] {
    [0; 256]
}

impl HeldTexts {
    /// No texts. It takes no memory.
    pub fn new(alloc: Global) -> HeldTexts
        ensures { result ≡ [] }
    {
        HeldTexts {
            texts: IndexSet::new(alloc),
            hints: no_hints(),
        }
    }

    /// The bytes of the text at a place.
    pub fn bytes(&self, at: usize) -> &[u8]
        requires { at < length self.now }
        ensures bytes { result.now ≡ get_or self.now at [] }
        ensures apart { AreApart self.now }
    {
        self.texts.as_slice()[at].as_slice()
    }

    // The place of a text by its hash, where it is held from then on.
    #[inline(never)]
    fn look_up(&mut self, alloc: Global, bytes: &[u8]) -> Result<usize, NoMemory>
        ensures place { IfOk result (λ at. (at < length self.new) × (get_or self.new at [] ≡ bytes.now)) }
        ensures held { OnOk result (self.new ≡ with_text self.old bytes.now) }
        ensures unchanged { OnErr result (self.new ≡ self.old) }
        ensures apart { AreApart self.new }
    {
        if let Some(at) = self.texts.get_index_of(bytes) {
            return Ok(at);
        }
        let text = Vec::from_slice(alloc, bytes)?;
        let (at, _) = self.texts.insert_full(text)?;
        Ok(at)
    }
    /// The place of a text, which is held from then on.
    #[inline(always)]
    pub fn hold(&mut self, alloc: Global, bytes: &[u8]) -> Result<usize, NoMemory>
        ensures place { IfOk result (λ at. (at < length self.new) × (get_or self.new at [] ≡ bytes.now)) }
        ensures held { OnOk result (self.new ≡ with_text self.old bytes.now) }
        ensures unchanged { OnErr result (self.new ≡ self.old) }
        ensures apart { AreApart self.new }
    {
        let number = number_of(bytes);
        let hint = self.hints[number];
        if stands_at(self.texts.as_slice(), hint, bytes) {
            return Ok(hint);
        }
        let at = self.look_up(alloc, bytes)?;
        self.hints[number] = at;
        Ok(at)
    }
}
