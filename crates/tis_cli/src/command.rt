//! The words of the command line.
ghost use Rattle.std.specs.Prelude.{◌≡◌, [], ◌∷◌, map, option_map, string_bytes};
ghost use Rattle.tis_cli.specs.Commands.{command_of, fixed_of, command_view, seed_of as seed_in, limit_of as limit_in, seeds_of as seeds_in, kept_seeds, grade_of, run_with, order_with, replay_with, grade_with, debug_with};
ghost use Rattle.tis_cli.specs.Outcomes.{words_of};

use tis_words::number_of;

/// How many seeds a grade takes at most.
pub(crate) const SEEDS: usize = 8;

/// A command with its words.
#[derive(Clone, Copy, Debug)]
pub enum Command<'a> {
    /// Compiles the network under one name to a save under another.
    Compile {
        net: &'a str,
        save: &'a str,
    },
    /// Finds the streams of the network under one name over the inputs of the grid text under another.
    Net {
        net: &'a str,
        grid: &'a str,
    },
    /// Runs a save over a specification cycle by cycle.
    Run {
        save: &'a str,
        spec: &'a str,
        seed: u64,
        cycles: u64,
    },
    /// Runs a save over a specification in a drawn order.
    Order {
        save: &'a str,
        spec: &'a str,
        seed: u64,
        order_seed: u64,
        limit: u64,
    },
    /// Runs a save over a specification by the events of a text.
    Replay {
        save: &'a str,
        spec: &'a str,
        seed: u64,
        events: &'a str,
    },
    /// Grades a save over a specification for one to eight seeds, which stand first to last.
    Grade {
        save: &'a str,
        spec: &'a str,
        limit: u64,
        seeds: [Option<u64>; SEEDS],
    },
    /// Debugs a save over a specification by the commands of a script.
    Debug {
        save: &'a str,
        spec: &'a str,
        seed: u64,
        script: &'a str,
    },
}

// The number of a word that is a seed.
fn seed_of(word: &String) -> Option<u64>
    ensures { result ≡ seed_in (string_bytes word.now) }
{
    number_of(word.as_bytes(), u64::MAX)
}

// The number of a word that says how many events may happen, or how many cycles may be done.
fn limit_of(word: &String) -> Option<u64>
    ensures { result ≡ limit_in (string_bytes word.now) }
{
    number_of(word.as_bytes(), 10_000_000)
}

// The command `run` with these words.
fn run<'a>(
    save: &'a String,
    spec: &'a String,
    seed: &String,
    cycles: &String,
) -> Option<Command<'a>>
    ensures { run_with (string_bytes save.now) (string_bytes spec.now) (seed_in (string_bytes seed.now)) (limit_in (string_bytes cycles.now)) ≡ option_map command_view result }
{
    Some(Command::Run {
        save: save.as_str(),
        spec: spec.as_str(),
        seed: seed_of(seed)?,
        cycles: limit_of(cycles)?,
    })
}

// The command `order` with these words.
fn order<'a>(
    save: &'a String,
    spec: &'a String,
    seed: &String,
    order_seed: &String,
    limit: &String,
) -> Option<Command<'a>>
    ensures { order_with (string_bytes save.now) (string_bytes spec.now) (seed_in (string_bytes seed.now)) (seed_in (string_bytes order_seed.now)) (limit_in (string_bytes limit.now)) ≡ option_map command_view result }
{
    Some(Command::Order {
        save: save.as_str(),
        spec: spec.as_str(),
        seed: seed_of(seed)?,
        order_seed: seed_of(order_seed)?,
        limit: limit_of(limit)?,
    })
}

// The command `replay` with these words.
fn replay<'a>(
    save: &'a String,
    spec: &'a String,
    seed: &String,
    events: &'a String,
) -> Option<Command<'a>>
    ensures { replay_with (string_bytes save.now) (string_bytes spec.now) (seed_in (string_bytes seed.now)) (string_bytes events.now) ≡ option_map command_view result }
{
    Some(Command::Replay {
        save: save.as_str(),
        spec: spec.as_str(),
        seed: seed_of(seed)?,
        events: events.as_str(),
    })
}

// The numbers of words that are one to eight seeds, first to last.
fn seeds_of(words: &[String]) -> Option<[Option<u64>; SEEDS]>
    ensures { seeds_in (map string_bytes words.now) ≡ option_map (λ kept. kept_seeds kept) result }
{
    if words.is_empty() || SEEDS < words.len() {
        return None;
    }
    let mut seeds = [None; SEEDS];
    for index in 0..words.len() {
        let seed = seed_of(&words[index])?;
        seeds[index] = Some(seed);
    }
    Some(seeds)
}

// The command `grade` with these words.
fn grade<'a>(
    save: &'a String,
    spec: &'a String,
    limit: &String,
    seeds: &[String],
) -> Option<Command<'a>>
    ensures { grade_with (string_bytes save.now) (string_bytes spec.now) (limit_in (string_bytes limit.now)) (seeds_in (map string_bytes seeds.now)) ≡ option_map command_view result }
{
    Some(Command::Grade {
        save: save.as_str(),
        spec: spec.as_str(),
        limit: limit_of(limit)?,
        seeds: seeds_of(seeds)?,
    })
}

// The command `debug` with these words.
fn debug<'a>(
    save: &'a String,
    spec: &'a String,
    seed: &String,
    script: &'a String,
) -> Option<Command<'a>>
    ensures { debug_with (string_bytes save.now) (string_bytes spec.now) (seed_in (string_bytes seed.now)) (string_bytes script.now) ≡ option_map command_view result }
{
    Some(Command::Debug {
        save: save.as_str(),
        spec: spec.as_str(),
        seed: seed_of(seed)?,
        script: script.as_str(),
    })
}

// The command `grade` of these words, or None where they are another or none.
fn read_grade<'a>(words: &'a [String]) -> Option<Command<'a>>
    ensures { grade_of (words_of words.now) ≡ option_map command_view result }
{
    match words {
        [word, save, spec, limit, seeds @ ..] if word.as_str() == "grade" => {
            grade(save, spec, limit, seeds)
        }
        _ => None,
    }
}

// The command of three words, of which the first says which it is.
fn read_three<'a>(word: &String, first: &'a String, second: &'a String) -> Option<Command<'a>>
    ensures { fixed_of (string_bytes word.now ∷ string_bytes first.now ∷ string_bytes second.now ∷ []) ≡ option_map command_view result }
{
    if word.as_str() == "compile" {
        return Some(Command::Compile {
            net: first.as_str(),
            save: second.as_str(),
        });
    }
    if word.as_str() == "net" {
        return Some(Command::Net {
            net: first.as_str(),
            grid: second.as_str(),
        });
    }
    None
}

// The command of five words.
fn read_five<'a>(
    word: &String,
    save: &'a String,
    spec: &'a String,
    seed: &String,
    last: &'a String,
) -> Option<Command<'a>>
    ensures { fixed_of (string_bytes word.now ∷ string_bytes save.now ∷ string_bytes spec.now ∷ string_bytes seed.now ∷ string_bytes last.now ∷ []) ≡ option_map command_view result }
{
    if word.as_str() == "run" {
        return run(save, spec, seed, last);
    }
    if word.as_str() == "replay" {
        return replay(save, spec, seed, last);
    }
    if word.as_str() == "debug" {
        return debug(save, spec, seed, last);
    }
    None
}

// The command of six words.
fn read_six<'a>(
    word: &String,
    save: &'a String,
    spec: &'a String,
    seed: &String,
    order_seed: &String,
    limit: &String,
) -> Option<Command<'a>>
    ensures { fixed_of (string_bytes word.now ∷ string_bytes save.now ∷ string_bytes spec.now ∷ string_bytes seed.now ∷ string_bytes order_seed.now ∷ string_bytes limit.now ∷ []) ≡ option_map command_view result }
{
    if word.as_str() == "order" {
        return order(save, spec, seed, order_seed, limit);
    }
    None
}

// The command of a fixed number of words that these words are.
fn read_fixed<'a>(words: &'a [String]) -> Option<Command<'a>>
    ensures { fixed_of (words_of words.now) ≡ option_map command_view result }
{
    match words {
        [word, net, save] => read_three(word, net, save),
        [word, save, spec, seed, last] => read_five(word, save, spec, seed, last),
        [word, save, spec, seed, order_seed, limit] => {
            read_six(word, save, spec, seed, order_seed, limit)
        }
        _ => None,
    }
}

/// The command that these words are, or None where they are none.
pub fn read_words<'a>(words: &'a [String]) -> Option<Command<'a>>
    ensures { command_of (words_of words.now) ≡ option_map command_view result }
{
    match read_fixed(words) {
        Some(command) => Some(command),
        None => read_grade(words),
    }
}
