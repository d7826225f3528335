//! The console on which an output draws.
ghost use Rattle.std.specs.Prelude.{◌≡◌, ◌<◌, ◌≤◌, Some, slice_get};
ghost use Rattle.tis_devices.specs.Picture.{COLUMNS, ROWS, black, after_value, next_point as next_point_of, point_of, RED};

use std::marker::Model;
use tis_base::Value;

// How many columns and rows the console has, and how many points.
const WIDTH: u16 = 30;

const HEIGHT: u16 = 18;

const POINTS: usize = 540;

// The greatest colour, and the column at which a drawing stays.
const GREATEST: u16 = 4;

const FURTHEST: u16 = 1000;

/// Where a drawing stands.
#[derive(Clone, Copy, Debug, PartialEq, Eq, Hash)]
pub(crate) enum Place {
    /// The next value is its X.
    BeforeX,
    /// The next value is its Y.
    BeforeY { x: u16 },
    /// The next value is the colour of a point.
    Before { x: u16, y: u16 },
}

/// The console: thirty columns, counted from the left, and eighteen rows, counted from the top. Contracts
/// see the colours of its points, row by row, and the place in the drawing.
#[derive(Debug, Drop)]
pub struct Console {
    colours: [u8; POINTS],
    place: Place,
}

impl Model for Console {
    ghost use Rattle.tis_devices.specs.Picture.{Picture};

    ghost Value = { Picture };

    ghost use Rattle.tis_devices.specs.PlaceView.{place_view, HasColumn};
    ghost use Rattle.tis_devices.specs.Picture.{RED};
    ghost use Rattle.std.specs.Prelude.{All, ◌≤◌};

    ghost view = { λ c. record { colours = c.colours; place = place_view c.place } };

    ghost invariant = { λ c. HasColumn c.place × All (λ colour. colour ≤ RED) c.colours };
}

impl Console {
    /// The black console.
    pub fn new() -> Console
        ensures { result ≡ black }
    {
        Console {
            colours: [0; POINTS],
            place: Place::BeforeX,
        }
    }

    /// Takes the next value of a drawing: its X, its Y, or the colour of a point, behind which the
    /// drawing stands one column further, up to column 1,000. What isn't on the console, or is no colour
    /// from 0 to 4, leaves the picture as it is. A value below 0 ends the drawing, also in place of X or Y.
    pub fn paint(&mut self, value: Value)
        ensures { self.new ≡ after_value self.old value }
    {
        let number = value.get();
        if number < 0 {
            self.place = Place::BeforeX;
            return;
        }
        let number = number as u16;
        self.place = match self.place {
            Place::BeforeX => Place::BeforeY { x: number },
            Place::BeforeY { x } => Place::Before { x, y: number },
            Place::Before { x, y } => {
                if x < WIDTH && y < HEIGHT && number <= GREATEST {
                    self.colours[(y * WIDTH + x) as usize] = number as u8;
                }
                Place::Before {
                    x: (x + 1).min(FURTHEST),
                    y,
                }
            }
        };
    }

    /// The column and the row of the point that the next value paints where it is a colour, or None where the
    /// next value is an X or a Y, or the drawing stands beside the console.
    pub fn next_point(&self) -> Option<(u8, u8)>
        ensures { result ≡ next_point_of self.now.place }
    {
        match self.place {
            Place::Before { x, y } if x < WIDTH && y < HEIGHT => Some((x as u8, y as u8)),
            _ => None,
        }
    }

    /// The colour of a point, from 0 to 4.
    pub fn pixel(&self, x: u8, y: u8) -> u8
        requires column { x < COLUMNS }
        requires row { y < ROWS }
        ensures pixel { slice_get self.now.colours (point_of x y) ≡ Some result }
        ensures colour { result ≤ RED }
    {
        self.colours[(u16::from(y) * WIDTH + u16::from(x)) as usize]
    }
}
