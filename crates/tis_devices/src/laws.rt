//! Laws of pictures.
ghost use Rattle.tis_devices.specs.Picture.{DrawingsPaint, PicturesGrow, PicturesAreWhole};

/// A drawing paints its colours to the right of its point and nothing else; what is drawn later is drawn on
/// what was drawn before; and a picture has always 540 colours from 0 to 4.
pub fn pictures_are_drawn()
    ensures drawings { DrawingsPaint }
    ensures grow { PicturesGrow }
    ensures whole { PicturesAreWhole }
{}
