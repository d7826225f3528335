//! The directions in which the links of a process lie.
ghost use Rattle.std.specs.Prelude.{◌≡◌, ◌<◌, ◌+◌, ◌⊎◌, ◌↔◌, ◌==◌, ℕ, [], ◌∷◌, ◌++◌, length, slice_set, IsTrue, IsSome, IfSome, Some, if◌then◌else◌};
ghost use Rattle.std.specs.Bool.{OnTrue, OnFalse};
ghost use Rattle.std.specs.List.{position_from};
ghost use Rattle.net_select.specs.HeldPorts.{port_of, ports_of, one_if_new};

use arrayvec::ArrayVec;
use std::marker::Model;
use tis_base::Dir;

// How many numbers have a direction at most.
const MOST: usize = 8;

/// A number, and the direction in which its link lies.
#[derive(Clone, Copy, Debug, PartialEq, Eq, Hash)]
struct PortAt {
    number: u32,
    dir: Dir,
}

impl Default for PortAt {
    fn default() -> Self {
        PortAt {
            number: 0,
            dir: Dir::Up,
        }
    }
}

/// For each number that a process uses, the direction in which its link lies: at most eight numbers.
#[derive(Debug, Drop)]
pub struct Ports {
    ports: ArrayVec<PortAt, MOST>,
}

impl Model for Ports {
    ghost use Rattle.std.specs.Prelude.{List};
    ghost use Rattle.net_select.specs.declared.ports.PortAt.{PortAt};

    ghost Value = { List PortAt };

    ghost view = { λ p. p.ports.items };
}

impl Ports {
    /// No number has a direction.
    pub fn new() -> Ports
        ensures { result ≡ [] }
    {
        Ports {
            ports: ArrayVec::new(),
        }
    }

    // Where a number stands, if it has a direction.
    fn place_of(&self, number: u32) -> Option<usize>
        ensures place { result ≡ position_from (λ port. port.number == number) 0 self.now }
        ensures few { IfSome result (λ place. place < 8) }
    {
        'ports: for index in 0..self.ports.len() {
            if self.ports[index].number == number {
                return Some(index);
            }
        }
        None
    }

    // One in place of another.
    fn replace(&mut self, place: usize, port: PortAt)
        requires within { place < length self.old }
        requires few { place < 8 }
        ensures { self.new ≡ slice_set self.old place port }
    {
        self.ports[place] = port;
    }

    // One more, where fewer than eight are there.
    fn add(&mut self, port: PortAt) -> bool
        ensures room { IsTrue result ↔ (length self.old < 8) }
        ensures added { OnTrue result (self.new ≡ self.old ++ port ∷ []) }
        ensures unchanged { OnFalse result (self.new ≡ self.old) }
    {
        self.ports.try_push(port).is_ok()
    }

    /// Gives a number this direction, in place of the one that it had. False, and nothing changes, exactly where
    /// it has none and eight other numbers have one.
    pub fn set(&mut self, number: u32, dir: Dir) -> bool
        ensures taken { IsTrue result ↔ (IsSome (port_of self.old number) ⊎ (length self.old < 8)) }
        ensures ports { OnTrue result ((other : ℕ) → port_of self.new other ≡ (if other == number then Some dir else port_of self.old other)) }
        ensures count { OnTrue result (length self.new ≡ length self.old + one_if_new (port_of self.old number)) }
        ensures unchanged { OnFalse result (self.new ≡ self.old) }
    {
        let port = PortAt { number, dir };
        match self.place_of(number) {
            Some(place) => {
                self.replace(place, port);
                true
            }
            None => self.add(port),
        }
    }

    // The direction of a number; one that has none is looked at as if it lay above.
    pub(crate) fn dir(&self, number: u32) -> Dir
        ensures { result ≡ ports_of self.now number }
    {
        'ports: for port in self.ports.as_slice() {
            if port.number == number {
                return port.dir;
            }
        }
        Dir::Up
    }
}
