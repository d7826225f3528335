//! Laws of saves.
ghost use Rattle.tis_save.specs.ReadingBack.{SavesReadBack};
ghost use Rattle.tis_save.specs.Soundness.{SavesAreSound};

/// The canonical save of programs whose jumps stay inside is read as these programs.
pub fn saves_read_back()
    ensures { SavesReadBack }
{}

/// Each text that is a save of some tiles gives programs of these tiles, whose jumps stay inside.
pub fn saves_are_sound()
    ensures { SavesAreSound }
{}
